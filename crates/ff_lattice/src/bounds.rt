//! Cycles and bounds of two levels, in a table of their order.
ghost use Rattle.std.specs.Prelude.{◌≡◌, ◌≢◌, ℕ, ◌<◌, ◌↔◌, IsTrue, OnOk, IfOk, IfErr, IfSome, IfNone, MatchOption, length};
ghost use Rattle.ff_lattice.specs.Bounds.{IsJoin, LacksJoin, AreCyclic, IsLattice, NoPair, EachPair, HasJoin, IsLeastPair};
ghost use Rattle.ff_lattice.specs.Levels.{IsOrderFault, nth};
ghost use Rattle.ff_lattice.specs.Relation.{Related, IsRelation, AreOrdered, AreTurned};

use crate::{LatticeFault, LevelSet, NoMemory};
use ff_name::{Level, Text};

/// The level that is related to just what both `a` and `b` are related to, which is their join.
pub(crate) fn join_in(rows: &[LevelSet], a: Level, b: Level) -> Option<Level>
    requires rows { IsRelation (length rows.now) rows.now }
    requires ordered { AreOrdered rows.now }
    requires first { a.0 < length rows.now }
    requires second { b.0 < length rows.now }
    ensures found { IfSome result (λ c. IsJoin (Related rows.now) (length rows.now) a.0 b.0 c.0) }
    ensures none { IfNone result (LacksJoin (Related rows.now) (length rows.now) a.0 b.0) }
{
    let bounds = rows[a.0 as usize].both(rows[b.0 as usize]);
    for number in 0..rows.len() as u8 {
        if rows[number as usize] == bounds {
            return Some(Level(number));
        }
    }
    None
}

/// Whether each of the levels is related to the other.
fn are_cyclic(rows: &[LevelSet], a: Level, b: Level) -> bool
    requires rows { IsRelation (length rows.now) rows.now }
    requires first { a.0 < length rows.now }
    requires second { b.0 < length rows.now }
    ensures { IsTrue result ↔ AreCyclic (Related rows.now) a.0 b.0 }
{
    rows[a.0 as usize].has(b) && rows[b.0 as usize].has(a)
}

/// The least two levels that are each related to the other.
fn first_cycle(rows: &[LevelSet]) -> Option<(Level, Level)>
    requires { IsRelation (length rows.now) rows.now }
    ensures { MatchOption result (NoPair (length rows.now) (AreCyclic (Related rows.now)))
        (λ pair. IsLeastPair (length rows.now) (AreCyclic (Related rows.now)) pair.0.0 pair.1.0) }
{
    let size = rows.len() as u8;
    for a in 0..size {
        for b in a + 1..size {
            if are_cyclic(rows, Level(a), Level(b)) {
                return Some((Level(a), Level(b)));
            }
        }
    }
    None
}

/// The least two levels with no join.
fn first_without_join(rows: &[LevelSet]) -> Option<(Level, Level)>
    requires rows { IsRelation (length rows.now) rows.now }
    requires ordered { AreOrdered rows.now }
    ensures { MatchOption result (EachPair (length rows.now)
        (HasJoin (Related rows.now) (length rows.now)))
        (λ pair. IsLeastPair (length rows.now) (LacksJoin (Related rows.now) (length rows.now))
        pair.0.0 pair.1.0) }
{
    let size = rows.len() as u8;
    for a in 0..size {
        for b in a + 1..size {
            if join_in(rows, Level(a), Level(b)).is_none() {
                return Some((Level(a), Level(b)));
            }
        }
    }
    None
}

/// The names of two levels.
fn names_of(levels: &Vec<Text>, a: Level, b: Level) -> Result<(Text, Text), NoMemory>
    requires first { a.0 < length levels.now.items }
    requires second { b.0 < length levels.now.items }
    ensures { IfOk result (λ names. (names.0 ≡ nth levels.now.items a.0)
        × (names.1 ≡ nth levels.now.items b.0)) }
{
    let low = levels[a.0 as usize].copy()?;
    let high = levels[b.0 as usize].copy()?;
    Ok((low, high))
}

/// Tests that an order, of which `up` and `down` are the two sides, is a lattice.
pub(crate) fn check_order(
    levels: &Vec<Text>,
    up: &[LevelSet],
    down: &[LevelSet],
) -> Result<(), LatticeFault>
    requires size { length up.now ≡ length levels.now.items }
    requires up { IsRelation (length up.now) up.now }
    requires ordered { AreOrdered up.now }
    requires down { AreTurned up.now down.now }
    ensures found { OnOk result (IsLattice (Related up.now) (length levels.now.items)) }
    ensures fault { IfErr result (λ fault. fault ≢ LatticeFault.NoMemory
        → IsOrderFault levels.now.items (Related up.now) fault) }
{
    if let Some((a, b)) = first_cycle(up) {
        let (low, high) = names_of(levels, a, b)?;
        return Err(LatticeFault::Cycle(low, high));
    }
    if let Some((a, b)) = first_without_join(up) {
        let (low, high) = names_of(levels, a, b)?;
        return Err(LatticeFault::NoJoin(low, high));
    }
    if let Some((a, b)) = first_without_join(down) {
        let (low, high) = names_of(levels, a, b)?;
        return Err(LatticeFault::NoMeet(low, high));
    }
    Ok(())
}
