//! From the names of levels to the levels.
ghost use Rattle.std.specs.Prelude.{◌≡◌, ◌≢◌, ◌++◌, IfOk, IfErr, Ok, Err, option_map, bytes_eq};
ghost use Rattle.std.specs.List.{find};
ghost use Rattle.ff_value.specs.Kinds.{word_of};
ghost use Rattle.ff_policy.specs.Naming as spec;
ghost use Rattle.ff_policy.specs.Naming.{AreRising, kinds_named};

use crate::PolicyFault;
use crate::draft::Draft;
use crate::key::Key;
use crate::kinds::{KindLevels, Kinds};
use crate::members::joined;
use crate::plan::{Named, NamedKind, Plan};
use ff_lattice::Lattice;
use ff_name::{Level, Text};
use ff_value::{Kind, Worded};
use std::alloc::Global;

/// The level that is named at the place of these two words.
fn level_at(
    alloc: Global,
    lattice: &Lattice,
    head: &str,
    tail: &str,
    name: &Text,
) -> Result<Level, PolicyFault>
    ensures found { IfOk result (λ l. spec.level_at lattice.now (head.now ++ tail.now) name.now
        ≡ Ok l.0) }
    ensures fault { IfErr result (λ fault. fault ≢ PolicyFault.NoMemory
        → spec.level_at lattice.now (head.now ++ tail.now) name.now ≡ Err fault) }
{
    match lattice.by_name(name.as_bytes()) {
        Some(level) => Ok(level),
        None => Err(PolicyFault::UnknownLevel(joined(alloc, head, tail)?)),
    }
}

/// The keys with their levels.
fn keys_named(alloc: Global, lattice: &Lattice, domains: &[Named]) -> Result<Vec<Key>, PolicyFault>
    ensures found { IfOk result (λ keys. spec.keys_named lattice.now domains.now ≡ Ok keys.items) }
    ensures fault { IfErr result (λ fault. fault ≢ PolicyFault.NoMemory
        → spec.keys_named lattice.now domains.now ≡ Err fault) }
{
    let mut keys = Vec::new(alloc);
    for one in domains {
        let level = level_at(alloc, lattice, "domains.", one.key.as_str(), &one.level)?;
        keys.push(Key {
            key: one.key.copy()?,
            level,
        })?;
    }
    Ok(keys)
}

/// The one that is named for a kind.
#[tactic(auto, using(crate::proofs::Seeking::seek_start, crate::proofs::Seeking::seek_step, crate::proofs::Seeking::seek_found, crate::proofs::Seeking::seek_none))]
fn named_kind<'n>(kinds: &'n [NamedKind], kind: &[u8]) -> Option<&'n NamedKind>
    ensures { option_map (λ one. one.now) result
        ≡ find (λ one. bytes_eq one.key kind.now) kinds.now }
{
    for one in kinds {
        if one.key.as_bytes() == kind {
            return Some(one);
        }
    }
    None
}

/// The levels of a kind: the bottom where none are named.
fn kind_named(
    alloc: Global,
    lattice: &Lattice,
    kinds: &[NamedKind],
    kind: Kind,
) -> Result<KindLevels, PolicyFault>
    ensures found { IfOk result (λ levels. spec.kind_named lattice.now kinds.now (word_of kind)
        ≡ Ok levels) }
    ensures fault { IfErr result (λ fault. fault ≢ PolicyFault.NoMemory
        → spec.kind_named lattice.now kinds.now (word_of kind) ≡ Err fault) }
{
    let word = kind.word();
    levels_or_bottom(alloc, lattice, word, named_kind(kinds, word.as_bytes()))
}

/// The levels that are named for the kind with this word.
fn levels_or_bottom(
    alloc: Global,
    lattice: &Lattice,
    word: &str,
    named: Option<&NamedKind>,
) -> Result<KindLevels, PolicyFault>
    ensures found { IfOk result (λ levels. spec.levels_or_bottom lattice.now word.now
        (option_map (λ one. one.now) named.entry) ≡ Ok levels) }
    ensures fault { IfErr result (λ fault. fault ≢ PolicyFault.NoMemory
        → spec.levels_or_bottom lattice.now word.now (option_map (λ one. one.now) named.entry)
        ≡ Err fault) }
{
    match named {
        None => Ok(KindLevels::both(lattice.bottom())),
        Some(one) => Ok(KindLevels {
            presence: level_at(alloc, lattice, "kinds.", word, &one.presence)?,
            content: level_at(alloc, lattice, "kinds.", word, &one.content)?,
        }),
    }
}

/// The levels of the kinds.
#[tactic(auto, unfolding(crate::specs::Naming::kinds_named))]
fn kinds_named(alloc: Global, lattice: &Lattice, kinds: &[NamedKind]) -> Result<Kinds, PolicyFault>
    ensures found { IfOk result (λ levels. kinds_named lattice.now kinds.now ≡ Ok levels) }
    ensures fault { IfErr result (λ fault. fault ≢ PolicyFault.NoMemory
        → kinds_named lattice.now kinds.now ≡ Err fault) }
{
    let opens = kind_named(alloc, lattice, kinds, Kind::Open)?;
    let goes = kind_named(alloc, lattice, kinds, Kind::Go)?;
    let links = kind_named(alloc, lattice, kinds, Kind::Link)?;
    let closes = kind_named(alloc, lattice, kinds, Kind::Close)?;
    let types = kind_named(alloc, lattice, kinds, Kind::Type)?;
    let clicks = kind_named(alloc, lattice, kinds, Kind::Click)?;
    let replies = kind_named(alloc, lattice, kinds, Kind::Reply)?;
    Ok(Kinds {
        opens,
        goes,
        links,
        closes,
        types,
        clicks,
        replies,
    })
}

/// The levels that a plan names.
#[tactic(auto, unfolding(crate::specs::Naming::assigned))]
pub(crate) fn assigned(alloc: Global, lattice: Lattice, plan: &Plan) -> Result<Draft, PolicyFault>
    ensures found { IfOk result (λ draft. spec.assigned lattice plan.now ≡ Ok draft) }
    ensures rising { IfOk result (λ _. AreRising plan.now.domains) }
    ensures fault { IfErr result (λ fault. fault ≢ PolicyFault.NoMemory
        → spec.assigned lattice plan.now ≡ Err fault) }
{
    let ui = level_at(alloc, &lattice, "ui", "", &plan.ui)?;
    let other = level_at(alloc, &lattice, "domain", "", &plan.other)?;
    let domains = keys_named(alloc, &lattice, &plan.domains)?;
    let kinds = kinds_named(alloc, &lattice, &plan.kinds)?;
    Ok(Draft {
        lattice,
        ui,
        other,
        domains,
        kinds,
        fuel: plan.fuel,
    })
}
