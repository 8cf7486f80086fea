//! Numbers the levels. A level's number is the index at which its name was inserted into a set of
//! names, and the names of pairs are looked up there. The set lives in this module alone, while a
//! lattice is built.
ghost use Rattle.std.specs.Prelude.{◌≡◌, ◌≢◌, ℕ, ◌<◌, List, IfOk, IfErr, length};
ghost use Rattle.ff_lattice.specs.Levels.{AreNamed, AreApart, IsFault, IsLevel, nth};
ghost use Rattle.ff_lattice.specs.Relation.{HoldPairs};
ghost use Rattle.ff_lattice.specs.declared.pair.Pair.{Pair};

use crate::relation::{equality, relate};
use crate::{LatticeFault, LevelSet, NoMemory, Pair};
use ff_name::{Level, Text};
use indexmap::IndexSet;
use std::alloc::Global;

/// The names as a set in their order, where no name is repeated.
fn distinct_names(alloc: Global, names: &[Text]) -> Result<IndexSet<Text>, LatticeFault>
    requires { AreNamed names.now }
    ensures found { IfOk result (λ levels. (levels.keys ≡ names.now) × AreApart names.now) }
    ensures fault { IfErr result (λ fault. fault ≢ LatticeFault.NoMemory → (below : List Pair)
        → IsFault names.now below fault) }
{
    let mut levels = IndexSet::new(alloc);
    for name in names {
        let (_, is_new) = levels.insert_full(name.copy()?)?;
        if !is_new {
            return Err(LatticeFault::Repeated(name.copy()?));
        }
    }
    Ok(levels)
}

/// The level of this name.
fn level_named(levels: &IndexSet<Text>, name: &Text) -> Result<Level, LatticeFault>
    requires { length levels.now.keys < 256 }
    ensures found { IfOk result (λ l. (l.0 < length levels.now.keys)
        × (nth levels.now.keys l.0 ≡ name.now)) }
    ensures fault { IfErr result (λ fault. fault ≢ LatticeFault.NoMemory
        → (fault ≡ LatticeFault.Unknown name.now) × (¬ IsLevel levels.now.keys name.now)) }
{
    match levels.get_index_of(name) {
        Some(place) => Ok(Level(place as u8)),
        None => Err(LatticeFault::Unknown(name.copy()?)),
    }
}

/// The table that relates each level to itself and the levels of each pair.
fn given_relation(
    alloc: Global,
    levels: &IndexSet<Text>,
    below: &[Pair],
) -> Result<Vec<LevelSet>, LatticeFault>
    requires { AreApart levels.now.keys }
    ensures found { IfOk result (λ rows. HoldPairs (length below.now) levels.now.keys below.now
        rows.items) }
    ensures fault { IfErr result (λ fault. fault ≢ LatticeFault.NoMemory
        → IsFault levels.now.keys below.now fault) }
{
    let mut rows = equality(alloc, levels.len() as u8)?;
    for pair in below {
        let low = level_named(levels, &pair.low)?;
        let high = level_named(levels, &pair.high)?;
        relate(&mut rows, low, high);
    }
    Ok(rows)
}

/// The same names once more, in their order.
fn copied(alloc: Global, names: &[Text]) -> Result<Vec<Text>, NoMemory>
    ensures { IfOk result (λ levels. levels.items ≡ names.now) }
{
    let mut levels = Vec::new(alloc);
    for name in names {
        levels.push(name.copy()?)?;
    }
    Ok(levels)
}

/// The levels' names in the order of their numbers, and the table that relates each level to itself
/// and the levels of each pair.
pub(crate) fn numbered(
    alloc: Global,
    names: &[Text],
    below: &[Pair],
) -> Result<(Vec<Text>, Vec<LevelSet>), LatticeFault>
    requires { AreNamed names.now }
    ensures found { IfOk result (λ given. (given.0.items ≡ names.now) × AreApart names.now
        × HoldPairs (length below.now) names.now below.now given.1.items) }
    ensures fault { IfErr result (λ fault. fault ≢ LatticeFault.NoMemory
        → IsFault names.now below.now fault) }
{
    let levels = distinct_names(alloc, names)?;
    let rows = given_relation(alloc, &levels, below)?;
    Ok((copied(alloc, levels.as_slice())?, rows))
}
