//! From a policy to its JSON text.
ghost use Rattle.std.specs.Prelude.{◌≡◌, ◌<◌, ◌≤◌, [], ◌∷◌, ◌++◌, length, codes, map, IfOk, OnOk};
ghost use Rattle.ff_contract.specs.Appending.{Appends};
ghost use Rattle.serde_json.specs.Data.{object, string, put};
ghost use Rattle.serde_json.specs.View.{view, members_view};
ghost use Rattle.ff_lattice.specs.Order.{size, name};
ghost use Rattle.std.specs.Str.{IsUtf8};
ghost use Rattle.ff_policy.specs.Assignment.{AreKeys, AreWithin, IsWithin, IsAssignment};
ghost use Rattle.ff_policy.specs.Printing as spec;
ghost use Rattle.ff_policy.specs.Printing.{data_of, printed, is_under, pair_if, pair_data, pairs_data, pairs_in, pairs_from, strings, keys_data};
ghost use Rattle.ff_policy.specs.Reading.{IsPolicyOf};
ghost use Rattle.ff_policy.specs.declared.limits.TheConstants.{MOST_POLICY_BYTES};
ghost use Rattle.ff_value.specs.Kinds.{word_of};

use crate::NoMemory;
use crate::key::Key;
use crate::kinds::{KindLevels, Kinds};
use crate::policy::Policy;
use ff_lattice::Lattice;
use ff_name::{Level, Worded};
use ff_value::Kind;
use serde_json::{Map, Value, json};
use std::alloc::Global;

impl Policy {
    /// Appends the policy as compact JSON of version 2, with all its members: `below` has each pair
    /// of different levels of which the first is at or below the second, in the order of the
    /// levels, and `kinds` has all seven kinds, each an object of its content and its presence. Its
    /// one refusal is want of memory; what was appended before it is a front of the text.
    #[tactic(auto, using(ff_contract::proofs::Sequence::front_none))]
    pub fn print(&self, alloc: Global, out: &mut Vec<u8>) -> Result<(), NoMemory>
        ensures appends { Appends result out.old.items out.new.items (printed self.now) }
        ensures utf8 { OnOk result (IsUtf8 (printed self.now)) }
        ensures again { OnOk result (length (printed self.now) ≤ MOST_POLICY_BYTES
            → IsPolicyOf (printed self.now) self.now) }
        // A newline behind the text changes nothing.
        ensures line { OnOk result (length (printed self.now ++ codes "\n") ≤ MOST_POLICY_BYTES
            → IsPolicyOf (printed self.now ++ codes "\n") self.now) }
    {
        let text = self.text(alloc)?;
        out.extend_from_slice(text.as_slice())?;
        Ok(())
    }

    /// The text of the policy.
    fn text(&self, alloc: Global) -> Result<Vec<u8>, NoMemory>
        ensures text { IfOk result (λ text. text.items ≡ printed self.now) }
        ensures utf8 { OnOk result (IsUtf8 (printed self.now)) }
        ensures again { OnOk result (length (printed self.now) ≤ MOST_POLICY_BYTES
            → IsPolicyOf (printed self.now) self.now) }
        ensures line { OnOk result (length (printed self.now ++ codes "\n") ≤ MOST_POLICY_BYTES
            → IsPolicyOf (printed self.now ++ codes "\n") self.now) }
    {
        let value = self.to_value(alloc)?;
        Ok(value.to_vec(alloc)?)
    }

    /// The policy as a JSON value of version 2.
    fn to_value(&self, alloc: Global) -> Result<Value, NoMemory>
        ensures value { IfOk result (λ value. view value ≡ data_of self.now) }
        ensures valid { IsAssignment self.now }
    {
        let mut members = Map::new(alloc);
        let below = pairs_value(alloc, &self.lattice)?;
        serde_json::put(&mut members, alloc, "below", below)?;
        let other = name_value(alloc, &self.lattice, self.other)?;
        serde_json::put(&mut members, alloc, "domain", other)?;
        let domains = keys_value(alloc, &self.lattice, &self.domains)?;
        serde_json::put(&mut members, alloc, "domains", domains)?;
        let fuel = Value::from(u64::from(self.fuel));
        serde_json::put(&mut members, alloc, "fuel", fuel)?;
        let kinds = kinds_value(alloc, &self.lattice, &self.kinds)?;
        serde_json::put(&mut members, alloc, "kinds", kinds)?;
        let levels = levels_value(alloc, &self.lattice)?;
        serde_json::put(&mut members, alloc, "levels", levels)?;
        let ui = name_value(alloc, &self.lattice, self.ui)?;
        serde_json::put(&mut members, alloc, "ui", ui)?;
        serde_json::put(&mut members, alloc, "version", Value::from(2_u64))?;
        Ok(Value::Object(members))
    }
}

/// The names of the levels.
fn levels_value(alloc: Global, lattice: &Lattice) -> Result<Value, NoMemory>
    ensures { IfOk result (λ value. view value ≡ strings lattice.now.names) }
{
    let mut names = Vec::new(alloc);
    for number in 0..lattice.size() {
        names.push(name_value(alloc, lattice, Level(number))?)?;
    }
    Ok(Value::Array(names))
}

/// The name of a level.
fn name_value(alloc: Global, lattice: &Lattice, level: Level) -> Result<Value, NoMemory>
    requires { level.0 < size lattice.now }
    ensures { IfOk result (λ value. view value ≡ string (name lattice.now level.0)) }
{
    Value::try_from_str(alloc, lattice.name(level).as_str())
}

/// The pairs of different levels, the low one and then the high one.
fn pairs_value(alloc: Global, lattice: &Lattice) -> Result<Value, NoMemory>
    ensures { IfOk result (λ value. view value ≡ pairs_data (pairs_in lattice.now)) }
{
    let mut pairs = Vec::new(alloc);
    for low in 0..lattice.size() {
        add_pairs(alloc, lattice, Level(low), &mut pairs)?;
    }
    Ok(Value::Array(pairs))
}

/// Adds the pairs of a level and each other one that it is at or below.
fn add_pairs(
    alloc: Global,
    lattice: &Lattice,
    low: Level,
    pairs: &mut Vec<Value>,
) -> Result<(), NoMemory>
    requires { low.0 < size lattice.now }
    ensures { OnOk result (map view pairs.new.items
        ≡ map view pairs.old.items ++ map pair_data (pairs_from lattice.now low.0)) }
{
    for high in 0..lattice.size() {
        add_pair(alloc, lattice, low, Level(high), pairs)?;
    }
    Ok(())
}

/// Adds a pair of levels, where the first is at or below the second, and another.
fn add_pair(
    alloc: Global,
    lattice: &Lattice,
    low: Level,
    high: Level,
    pairs: &mut Vec<Value>,
) -> Result<(), NoMemory>
    requires low { low.0 < size lattice.now }
    requires high { high.0 < size lattice.now }
    ensures { OnOk result (map view pairs.new.items
        ≡ map view pairs.old.items ++ map pair_data (pair_if lattice.now low.0 high.0)) }
{
    if !is_under(lattice, low, high) {
        return Ok(());
    }
    let pair = pair_value(alloc, lattice, low, high)?;
    pairs.push(pair)?;
    Ok(())
}

/// Whether the level `low` is at or below the level `high`, and another.
fn is_under(lattice: &Lattice, low: Level, high: Level) -> bool
    requires low { low.0 < size lattice.now }
    requires high { high.0 < size lattice.now }
    ensures { result ≡ is_under lattice.now low.0 high.0 }
{
    lattice.leq(low, high) && low.0 != high.0
}

/// A pair of levels.
fn pair_value(alloc: Global, lattice: &Lattice, low: Level, high: Level) -> Result<Value, NoMemory>
    requires low { low.0 < size lattice.now }
    requires high { high.0 < size lattice.now }
    ensures { IfOk result (λ value. view value
        ≡ strings (name lattice.now low.0 ∷ name lattice.now high.0 ∷ [])) }
{
    let low = name_value(alloc, lattice, low)?;
    let high = name_value(alloc, lattice, high)?;
    json!(in alloc; [low, high])
}

/// The keys, each with the name of its level.
fn keys_value(alloc: Global, lattice: &Lattice, keys: &[Key]) -> Result<Value, NoMemory>
    requires { AreKeys (size lattice.now) keys.now }
    ensures { IfOk result (λ value. view value ≡ object (keys_data lattice.now keys.now)) }
{
    let mut members = Map::new(alloc);
    for one in keys {
        put_key(alloc, lattice, one, &mut members)?;
    }
    Ok(Value::Object(members))
}

/// Puts the name of a key's level under the key.
fn put_key(
    alloc: Global,
    lattice: &Lattice,
    one: &Key,
    members: &mut Map<String, Value>,
) -> Result<(), NoMemory>
    requires { one.now.level < size lattice.now }
    ensures { OnOk result (members_view members.new.entries
        ≡ put one.now.key (string (name lattice.now one.now.level))
        (members_view members.old.entries)) }
{
    let level = name_value(alloc, lattice, one.level)?;
    serde_json::put(members, alloc, one.key.as_str(), level)
}

/// The kinds, each with the names of its levels.
fn kinds_value(alloc: Global, lattice: &Lattice, kinds: &Kinds) -> Result<Value, NoMemory>
    requires { AreWithin (size lattice.now) kinds.now }
    ensures { IfOk result (λ value. view value ≡ spec.kinds_data lattice.now kinds.now) }
{
    let mut members = Map::new(alloc);
    put_kind(alloc, lattice, Kind::Click, kinds.clicks, &mut members)?;
    put_kind(alloc, lattice, Kind::Close, kinds.closes, &mut members)?;
    put_kind(alloc, lattice, Kind::Go, kinds.goes, &mut members)?;
    put_kind(alloc, lattice, Kind::Link, kinds.links, &mut members)?;
    put_kind(alloc, lattice, Kind::Open, kinds.opens, &mut members)?;
    put_kind(alloc, lattice, Kind::Reply, kinds.replies, &mut members)?;
    put_kind(alloc, lattice, Kind::Type, kinds.types, &mut members)?;
    Ok(Value::Object(members))
}

/// Puts the names of a kind's levels under its word.
fn put_kind(
    alloc: Global,
    lattice: &Lattice,
    kind: Kind,
    levels: KindLevels,
    members: &mut Map<String, Value>,
) -> Result<(), NoMemory>
    requires { IsWithin (size lattice.now) levels }
    ensures { OnOk result (members_view members.new.entries
        ≡ put (word_of kind) (spec.kind_data lattice.now levels)
        (members_view members.old.entries)) }
{
    let value = kind_value(alloc, lattice, levels)?;
    serde_json::put(members, alloc, kind.word(), value)
}

/// The names of a kind's levels.
fn kind_value(alloc: Global, lattice: &Lattice, levels: KindLevels) -> Result<Value, NoMemory>
    requires { IsWithin (size lattice.now) levels }
    ensures { IfOk result (λ value. view value ≡ spec.kind_data lattice.now levels) }
{
    let content = name_value(alloc, lattice, levels.content)?;
    let presence = name_value(alloc, lattice, levels.presence)?;
    json!(in alloc; {"content": content, "presence": presence})
}
