//! From the bytes of a policy to what its members say.
ghost use Rattle.std.specs.Prelude.{◌≡◌, ◌≢◌, ◌≤◌, ◌++◌, [], length, codes, IfOk, IfErr, Ok, Err, Some, None};
ghost use Rattle.serde_json.specs.Find.{as_str};
ghost use Rattle.serde_json.specs.View.{view};
ghost use Rattle.ff_policy.specs.Members as spec;
ghost use Rattle.ff_policy.specs.Members.{required, optional, shaped};
ghost use Rattle.ff_policy.specs.Naming.{AreRising};
ghost use Rattle.ff_policy.specs.Reading.{IsValueOf, IsFault};

use crate::known::{check_known, version_in};
use crate::limits::{MOST_POLICY_BYTES, USUAL_FUEL};
use crate::plan::{Named, NamedKind, Plan};
use crate::shapes::{kinds, named, pairs, texts};
use crate::version::Version;
use crate::{NoMemory, PolicyFault};
use ff_lattice::Pair;
use ff_name::Text;
use serde_json::Value;
use std::alloc::Global;

/// The JSON value that the bytes are.
pub(crate) fn value_of(alloc: Global, bytes: &[u8]) -> Result<Value, PolicyFault>
    ensures found { IfOk result (λ value. (length bytes.now ≤ MOST_POLICY_BYTES)
        × IsValueOf bytes.now (view value)) }
    ensures fault { IfErr result (λ fault. fault ≢ PolicyFault.NoMemory → IsFault bytes.now fault) }
{
    if bytes.len() > MOST_POLICY_BYTES {
        return Err(PolicyFault::TooLarge);
    }
    match Value::from_slice(alloc, bytes) {
        Ok(value) => Ok(value),
        Err(error) if error.is_memory() => Err(PolicyFault::NoMemory),
        Err(_) => Err(PolicyFault::NotJson),
    }
}

/// What the value says as a policy.
#[tactic(auto, unfolding(crate::specs::Members::plan_in))]
pub(crate) fn plan_in(alloc: Global, value: &Value) -> Result<Plan, PolicyFault>
    ensures found { IfOk result (λ plan. spec.plan_in (view value.now) ≡ Ok plan) }
    ensures fault { IfErr result (λ fault. fault ≢ PolicyFault.NoMemory
        → spec.plan_in (view value.now) ≡ Err fault) }
{
    match version_in(value) {
        None => Err(PolicyFault::BadVersion),
        Some(version) => plan_of(alloc, version, value),
    }
}

/// What a value of this version says.
fn plan_of(alloc: Global, version: Version, value: &Value) -> Result<Plan, PolicyFault>
    ensures found { IfOk result (λ plan. spec.plan_of version (view value.now) ≡ Ok plan) }
    ensures fault { IfErr result (λ fault. fault ≢ PolicyFault.NoMemory
        → spec.plan_of version (view value.now) ≡ Err fault) }
{
    check_known(alloc, version, value)?;
    shaped(alloc, version, value)
}

/// A text of two parts.
pub(crate) fn joined(alloc: Global, head: &str, tail: &str) -> Result<Text, NoMemory>
    ensures { IfOk result (λ text. text ≡ head.now ++ tail.now) }
{
    let mut text = String::from_str(alloc, head)?;
    text.push_str(tail)?;
    Text::of_str(alloc, text.as_str())
}

/// What the members say, in the order in which their shapes are checked.
#[tactic(auto, unfolding(crate::specs::Members::shaped))]
fn shaped(alloc: Global, version: Version, value: &Value) -> Result<Plan, PolicyFault>
    ensures found { IfOk result (λ plan. shaped version (view value.now) ≡ Ok plan) }
    ensures fault { IfErr result (λ fault. fault ≢ PolicyFault.NoMemory
        → shaped version (view value.now) ≡ Err fault) }
{
    let levels = levels_in(alloc, value)?;
    let below = below_in(alloc, value)?;
    let ui = text_in(alloc, value, "ui")?;
    let other = text_in(alloc, value, "domain")?;
    let domains = domains_in(alloc, value)?;
    let kinds = kinds_in(alloc, version, value)?;
    let fuel = fuel_in(alloc, value)?;
    Ok(Plan {
        levels,
        below,
        ui,
        other,
        domains,
        kinds,
        fuel,
    })
}

/// What was found as the member of this name, or the fault that it has another shape.
fn shape_of<T: Drop>(alloc: Global, name: &str, found: Option<T>) -> Result<T, PolicyFault>
    ensures found { IfOk result (λ x. found ≡ Some x) }
    ensures fault { IfErr result (λ fault. fault ≢ PolicyFault.NoMemory → (found ≡ None)
        × (fault ≡ PolicyFault.BadShape name.now)) }
{
    match found {
        Some(found) => Ok(found),
        None => Err(PolicyFault::BadShape(Text::of_str(alloc, name)?)),
    }
}

/// The names of the levels.
fn levels_in(alloc: Global, value: &Value) -> Result<Vec<Text>, PolicyFault>
    ensures found { IfOk result (λ levels. required spec.texts (codes "levels") (view value.now)
        ≡ Ok levels.items) }
    ensures fault { IfErr result (λ fault. fault ≢ PolicyFault.NoMemory
        → required spec.texts (codes "levels") (view value.now) ≡ Err fault) }
{
    let levels = match value.get("levels") {
        None => None,
        Some(levels) => texts(alloc, levels)?,
    };
    shape_of(alloc, "levels", levels)
}

/// The pairs of levels.
fn below_in(alloc: Global, value: &Value) -> Result<Vec<Pair>, PolicyFault>
    ensures found { IfOk result (λ below. optional [] spec.pairs (codes "below") (view value.now)
        ≡ Ok below.items) }
    ensures fault { IfErr result (λ fault. fault ≢ PolicyFault.NoMemory
        → optional [] spec.pairs (codes "below") (view value.now) ≡ Err fault) }
{
    let below = match value.get("below") {
        None => Some(Vec::new(alloc)),
        Some(below) => pairs(alloc, below)?,
    };
    shape_of(alloc, "below", below)
}

/// The text of the member of this name.
fn text_in(alloc: Global, value: &Value, name: &str) -> Result<Text, PolicyFault>
    ensures found { IfOk result (λ text. required as_str name.now (view value.now) ≡ Ok text) }
    ensures fault { IfErr result (λ fault. fault ≢ PolicyFault.NoMemory
        → required as_str name.now (view value.now) ≡ Err fault) }
{
    match value.get(name).and_then(Value::as_str) {
        Some(text) => Ok(Text::of_str(alloc, text)?),
        None => Err(PolicyFault::BadShape(Text::of_str(alloc, name)?)),
    }
}

/// The keys for domains, each with its text.
fn domains_in(alloc: Global, value: &Value) -> Result<Vec<Named>, PolicyFault>
    ensures found { IfOk result (λ named. optional [] spec.named (codes "domains") (view value.now)
        ≡ Ok named.items) }
    ensures rising { IfOk result (λ named. AreRising named.items) }
    ensures fault { IfErr result (λ fault. fault ≢ PolicyFault.NoMemory
        → optional [] spec.named (codes "domains") (view value.now) ≡ Err fault) }
{
    let found = match value.get("domains") {
        None => Some(Vec::new(alloc)),
        Some(found) => named(alloc, found)?,
    };
    shape_of(alloc, "domains", found)
}

/// The kinds, each with the names of its levels.
fn kinds_in(alloc: Global, version: Version, value: &Value) -> Result<Vec<NamedKind>, PolicyFault>
    ensures found { IfOk result (λ kinds. optional [] (spec.kinds version) (codes "kinds")
        (view value.now) ≡ Ok kinds.items) }
    ensures fault { IfErr result (λ fault. fault ≢ PolicyFault.NoMemory
        → optional [] (spec.kinds version) (codes "kinds") (view value.now) ≡ Err fault) }
{
    let found = match value.get("kinds") {
        None => Some(Vec::new(alloc)),
        Some(found) => kinds(alloc, version, found)?,
    };
    shape_of(alloc, "kinds", found)
}

/// The fuel.
fn fuel_in(alloc: Global, value: &Value) -> Result<u64, PolicyFault>
    ensures found { IfOk result (λ fuel. optional USUAL_FUEL spec.whole (codes "fuel")
        (view value.now) ≡ Ok fuel) }
    ensures fault { IfErr result (λ fault. fault ≢ PolicyFault.NoMemory
        → optional USUAL_FUEL spec.whole (codes "fuel") (view value.now) ≡ Err fault) }
{
    let fuel = match value.get("fuel") {
        None => Some(USUAL_FUEL),
        Some(fuel) => fuel.as_u64(),
    };
    shape_of(alloc, "fuel", fuel)
}
