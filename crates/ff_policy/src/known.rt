//! The version of a policy, and members and kinds that none has.
ghost use Rattle.std.specs.Prelude.{◌≡◌, ◌≢◌, OnOk, IfOk, IfErr, Ok, Err, not, bytes_eq, option_map};
ghost use Rattle.std.specs.List.{find, list_any};
ghost use Rattle.std.specs.Option.{option_or};
ghost use Rattle.serde_json.specs.View.{view, members_view};
ghost use Rattle.ff_value.specs.Kinds.{word_of};
ghost use Rattle.ff_policy.specs.Members as spec;
ghost use Rattle.ff_policy.specs.Members.{is_among, keys_of, first_other, other_kind, other_side, odd_kind, side_place, first_side, unknown_side, unknown_field, member_names, side_names, kind_names, version_in, numbered, known};

use crate::kinds::{KINDS, USER_KINDS};
use crate::members::joined;
use crate::version::Version;
use crate::{NoMemory, PolicyFault};
use ff_name::{Text, Worded};
use ff_value::Kind;
use serde_json::{Map, Value};
use std::alloc::Global;

/// The version that the value says, where it is an object that says one.
pub(crate) fn version_in(value: &Value) -> Option<Version>
    ensures { result ≡ version_in (view value.now) }
{
    match value.get("version") {
        None => None,
        Some(version) => numbered(version.as_u64()),
    }
}

/// The version of this number.
fn numbered(number: Option<u64>) -> Option<Version>
    ensures { result ≡ numbered number }
{
    match number {
        None => None,
        Some(number) => {
            if number == 1 {
                Some(Version::One)
            } else if number == 2 {
                Some(Version::Two)
            } else {
                None
            }
        }
    }
}

/// Tests that each member, each kind and each member of a kind is known.
#[tactic(auto, unfolding(crate::specs::Members::known))]
pub(crate) fn check_known(alloc: Global, version: Version, value: &Value) -> Result<(), PolicyFault>
    ensures done { OnOk result (known version (view value.now) ≡ Ok tt) }
    ensures fault { IfErr result (λ fault. fault ≢ PolicyFault.NoMemory
        → known version (view value.now) ≡ Err fault) }
{
    match unknown_field(alloc, version, value)? {
        None => Ok(()),
        Some(name) => Err(PolicyFault::UnknownField(name)),
    }
}

/// The first field that isn't known.
fn unknown_field(alloc: Global, version: Version, value: &Value) -> Result<Option<Text>, NoMemory>
    ensures { IfOk result (λ found. found ≡ unknown_field version (view value.now)) }
{
    match other_member(value) {
        Some(name) => Ok(Some(Text::of_str(alloc, name)?)),
        None => unknown_in_kinds(alloc, version, value),
    }
}

/// The least other kind, else the first other member of a kind, behind `kinds.`.
fn unknown_in_kinds(
    alloc: Global,
    version: Version,
    value: &Value,
) -> Result<Option<Text>, NoMemory>
    ensures { IfOk result (λ found. found ≡ option_map spec.in_kinds
        (option_or (other_kind version (view value.now)) (unknown_side version (view value.now)))) }
{
    match other_kind(version, value) {
        Some(kind) => Ok(Some(joined(alloc, "kinds.", kind)?)),
        None => unknown_side(alloc, version, value),
    }
}

/// The first other member of a kind, behind `kinds.`, the kind's word and a dot.
fn unknown_side(alloc: Global, version: Version, value: &Value) -> Result<Option<Text>, NoMemory>
    ensures { IfOk result (λ found. found ≡ option_map spec.in_kinds
        (unknown_side version (view value.now))) }
{
    match value.get("kinds") {
        None => Ok(None),
        Some(kinds) => first_side(alloc, version, kinds),
    }
}

fn first_side(alloc: Global, version: Version, kinds: &Value) -> Result<Option<Text>, NoMemory>
    ensures { IfOk result (λ found. found ≡ option_map spec.in_kinds
        (first_side version (view kinds.now))) }
{
    match version {
        Version::One => Ok(None),
        Version::Two => match odd_kind(kinds) {
            None => Ok(None),
            Some(kind) => side_place(alloc, kinds, kind),
        },
    }
}

fn side_place(alloc: Global, kinds: &Value, kind: Kind) -> Result<Option<Text>, NoMemory>
    ensures { IfOk result (λ found. found ≡ option_map spec.in_kinds
        (side_place (view kinds.now) kind)) }
{
    match other_side(kinds, kind) {
        None => Ok(None),
        Some(side) => {
            let place = joined(alloc, kind.word(), ".")?;
            let place = joined(alloc, place.as_str(), side)?;
            Ok(Some(joined(alloc, "kinds.", place.as_str())?))
        }
    }
}

/// The first kind whose object has another member than a kind's.
fn odd_kind(kinds: &Value) -> Option<Kind>
    ensures { result ≡ odd_kind (view kinds.now) }
{
    KINDS
        .iter()
        .copied()
        .find(|kind| other_side(kinds, *kind).is_some())
}

/// The least member of a kind's object that is none of a kind's.
fn other_side(kinds: &Value, kind: Kind) -> Option<&str>
    ensures { option_map (λ name. name.now) result ≡ other_side (view kinds.now) kind }
{
    match kinds.get(kind.word()) {
        None => None,
        Some(kind) => other_side_of(kind),
    }
}

fn other_side_of(kind: &Value) -> Option<&str>
    ensures { option_map (λ name. name.now) result ≡ first_other side_names (view kind.now) }
{
    match kind.as_object() {
        None => None,
        Some(sides) => first_no_side(sides),
    }
}

#[tactic(auto, using(crate::proofs::Keys::search_start, crate::proofs::Keys::search_step, crate::proofs::Keys::search_found, crate::proofs::Keys::search_none))]
fn first_no_side(sides: &Map<String, Value>) -> Option<&str>
    ensures { option_map (λ name. name.now) result
        ≡ find (λ key. not (is_among side_names key)) (keys_of (members_view sides.now.entries)) }
{
    for key in sides.keys() {
        if !is_side(key.as_str()) {
            return Some(key.as_str());
        }
    }
    None
}

/// Whether a kind's object may have this member.
fn is_side(name: &str) -> bool
    ensures { result ≡ is_among side_names name.now }
{
    name == "presence" || name == "content"
}

/// The least member in byte order that is none of a policy's.
fn other_member(value: &Value) -> Option<&str>
    ensures { option_map (λ name. name.now) result ≡ first_other member_names (view value.now) }
{
    match value.as_object() {
        None => None,
        Some(members) => first_no_member(members),
    }
}

#[tactic(auto, using(crate::proofs::Keys::search_start, crate::proofs::Keys::search_step, crate::proofs::Keys::search_found, crate::proofs::Keys::search_none))]
fn first_no_member(members: &Map<String, Value>) -> Option<&str>
    ensures { option_map (λ name. name.now) result
        ≡ find (λ key. not (is_among member_names key))
        (keys_of (members_view members.now.entries)) }
{
    for key in members.keys() {
        if !is_member(key.as_str()) {
            return Some(key.as_str());
        }
    }
    None
}

/// The least key of `kinds` that is no kind.
fn other_kind(version: Version, value: &Value) -> Option<&str>
    ensures { option_map (λ name. name.now) result ≡ other_kind version (view value.now) }
{
    match value.get("kinds") {
        None => None,
        Some(kinds) => other_kind_of(version, kinds),
    }
}

fn other_kind_of(version: Version, kinds: &Value) -> Option<&str>
    ensures { option_map (λ name. name.now) result
        ≡ first_other (kind_names version) (view kinds.now) }
{
    match kinds.as_object() {
        None => None,
        Some(kinds) => first_no_kind(version, kinds),
    }
}

#[tactic(auto, using(crate::proofs::Keys::search_start, crate::proofs::Keys::search_step, crate::proofs::Keys::search_found, crate::proofs::Keys::search_none))]
fn first_no_kind(version: Version, kinds: &Map<String, Value>) -> Option<&str>
    ensures { option_map (λ name. name.now) result
        ≡ find (λ key. not (is_among (kind_names version) key))
        (keys_of (members_view kinds.now.entries)) }
{
    for key in kinds.keys() {
        if !is_kind(version, key.as_str()) {
            return Some(key.as_str());
        }
    }
    None
}

/// Whether a policy may have this member.
fn is_member(name: &str) -> bool
    ensures { result ≡ is_among member_names name.now }
{
    name == "version"
        || name == "levels"
        || name == "below"
        || name == "ui"
        || name == "domain"
        || name == "domains"
        || name == "kinds"
        || name == "fuel"
}

/// Whether this is the word of a kind that has levels of its own.
fn is_kind(version: Version, name: &str) -> bool
    ensures { result ≡ is_among (kind_names version) name.now }
{
    match version {
        Version::One => has_word(&USER_KINDS, name),
        Version::Two => has_word(&KINDS, name),
    }
}

/// Whether one of the kinds has this word.
fn has_word(kinds: &[Kind], word: &str) -> bool
    ensures { result ≡ list_any (λ kind. bytes_eq word.now (word_of kind)) kinds.now }
{
    kinds.iter().any(|kind| word == kind.word())
}
