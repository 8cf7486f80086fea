//! What the values of members are read as.
ghost use Rattle.std.specs.Prelude.{◌≡◌, IfOk, MatchOption, option_map, option_and_then};
ghost use Rattle.serde_json.specs.Find.{as_str};
ghost use Rattle.serde_json.specs.View.{view, items_view, members_view};
ghost use Rattle.ff_policy.specs.Members as spec;
ghost use Rattle.ff_policy.specs.Naming.{AreRising};

use crate::NoMemory;
use crate::plan::{Named, NamedKind};
use crate::version::Version;
use ff_lattice::Pair;
use ff_name::Text;
use serde_json::{Map, Value};
use std::alloc::Global;

/// The texts of an array of strings.
pub(crate) fn texts(alloc: Global, value: &Value) -> Result<Option<Vec<Text>>, NoMemory>
    ensures { IfOk result (λ found. option_map (λ texts. texts.items) found
        ≡ spec.texts (view value.now)) }
{
    match value.as_array() {
        None => Ok(None),
        Some(items) => texts_of(alloc, items.as_slice()),
    }
}

fn texts_of(alloc: Global, items: &[Value]) -> Result<Option<Vec<Text>>, NoMemory>
    ensures { IfOk result (λ found. option_map (λ texts. texts.items) found
        ≡ spec.texts_of (items_view items.now)) }
{
    let mut texts = Vec::new(alloc);
    for item in items {
        match item.as_str() {
            None => return Ok(None),
            Some(text) => texts.push(Text::of_str(alloc, text)?)?,
        }
    }
    Ok(Some(texts))
}

/// The pairs of an array of arrays of two strings.
pub(crate) fn pairs(alloc: Global, value: &Value) -> Result<Option<Vec<Pair>>, NoMemory>
    ensures { IfOk result (λ found. option_map (λ pairs. pairs.items) found
        ≡ spec.pairs (view value.now)) }
{
    match value.as_array() {
        None => Ok(None),
        Some(items) => pairs_of(alloc, items.as_slice()),
    }
}

fn pairs_of(alloc: Global, items: &[Value]) -> Result<Option<Vec<Pair>>, NoMemory>
    ensures { IfOk result (λ found. option_map (λ pairs. pairs.items) found
        ≡ spec.pairs_of (items_view items.now)) }
{
    let mut pairs = Vec::new(alloc);
    for item in items {
        match pair_of(alloc, item)? {
            None => return Ok(None),
            Some(pair) => pairs.push(pair)?,
        }
    }
    Ok(Some(pairs))
}

/// The pair of an array of two strings.
fn pair_of(alloc: Global, value: &Value) -> Result<Option<Pair>, NoMemory>
    ensures { IfOk result (λ found. found ≡ option_and_then spec.pair_of
        (spec.texts (view value.now))) }
{
    match texts(alloc, value)? {
        None => Ok(None),
        Some(texts) => pair_from(texts.as_slice()),
    }
}

fn pair_from(texts: &[Text]) -> Result<Option<Pair>, NoMemory>
    ensures { IfOk result (λ found. found ≡ spec.pair_of texts.now) }
{
    match texts {
        [low, high] => Ok(Some(Pair {
            low: low.copy()?,
            high: high.copy()?,
        })),
        _ => Ok(None),
    }
}

/// The keys of an object of strings, each with its string.
pub(crate) fn named(alloc: Global, value: &Value) -> Result<Option<Vec<Named>>, NoMemory>
    ensures found { IfOk result (λ found. option_map (λ named. named.items) found
        ≡ spec.named (view value.now)) }
    ensures rising { IfOk result (λ found. MatchOption found (Unit {0})
        (λ named. AreRising named.items)) }
{
    match value.as_object() {
        None => Ok(None),
        Some(members) => named_of(alloc, members),
    }
}

fn named_of(alloc: Global, members: &Map<String, Value>) -> Result<Option<Vec<Named>>, NoMemory>
    ensures found { IfOk result (λ found. option_map (λ named. named.items) found
        ≡ spec.named_of (members_view members.now.entries)) }
    ensures rising { IfOk result (λ found. MatchOption found (Unit {0})
        (λ named. AreRising named.items)) }
{
    let mut named = Vec::new(alloc);
    for (key, value) in members.iter() {
        match value.as_str() {
            None => return Ok(None),
            Some(level) => named.push(Named {
                key: Text::of_str(alloc, key.as_str())?,
                level: Text::of_str(alloc, level)?,
            })?,
        }
    }
    Ok(Some(named))
}

/// The kinds of an object, each with the names of its levels.
pub(crate) fn kinds(
    alloc: Global,
    version: Version,
    value: &Value,
) -> Result<Option<Vec<NamedKind>>, NoMemory>
    ensures { IfOk result (λ found. option_map (λ kinds. kinds.items) found
        ≡ spec.kinds version (view value.now)) }
{
    match value.as_object() {
        None => Ok(None),
        Some(members) => kinds_of(alloc, version, members),
    }
}

fn kinds_of(
    alloc: Global,
    version: Version,
    members: &Map<String, Value>,
) -> Result<Option<Vec<NamedKind>>, NoMemory>
    ensures { IfOk result (λ found. option_map (λ kinds. kinds.items) found
        ≡ spec.kinds_of version (members_view members.now.entries)) }
{
    let mut kinds = Vec::new(alloc);
    for (key, value) in members.iter() {
        match kind_shape(alloc, version, key.as_str(), value)? {
            None => return Ok(None),
            Some(kind) => kinds.push(kind)?,
        }
    }
    Ok(Some(kinds))
}

/// The names of a kind's levels: a string for both, or in the second version an object.
fn kind_shape(
    alloc: Global,
    version: Version,
    key: &str,
    value: &Value,
) -> Result<Option<NamedKind>, NoMemory>
    ensures { IfOk result (λ found. found ≡ spec.kind_shape version key.now (view value.now)) }
{
    match value.as_str() {
        Some(name) => Ok(Some(named_kind(alloc, key, name, name)?)),
        None => match version {
            Version::One => Ok(None),
            Version::Two => apart(alloc, key, value),
        },
    }
}

/// The names of a kind's levels in an object.
fn apart(alloc: Global, key: &str, value: &Value) -> Result<Option<NamedKind>, NoMemory>
    ensures { IfOk result (λ found. found ≡ spec.apart key.now (view value.now)) }
{
    match (text_at(value, "presence"), text_at(value, "content")) {
        (Some(presence), Some(content)) => Ok(Some(named_kind(alloc, key, presence, content)?)),
        _ => Ok(None),
    }
}

/// The text of the member of this name.
pub(crate) fn text_at<'v>(value: &'v Value, name: &str) -> Option<&'v str>
    ensures { option_map (λ text. text.now) result ≡ spec.text_at name.now (view value.now) }
{
    value.get(name).and_then(Value::as_str)
}

fn named_kind(
    alloc: Global,
    key: &str,
    presence: &str,
    content: &str,
) -> Result<NamedKind, NoMemory>
    ensures { IfOk result (λ kind. kind ≡ record
        { key = key.now; presence = presence.now; content = content.now }) }
{
    Ok(NamedKind {
        key: Text::of_str(alloc, key)?,
        presence: Text::of_str(alloc, presence)?,
        content: Text::of_str(alloc, content)?,
    })
}
