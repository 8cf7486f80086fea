//! Tables of a relation on levels: for each level the set of levels that it is related to.
ghost use Rattle.std.specs.Prelude.{◌≡◌, ◌<◌, ◌≤◌, IfOk, length};
ghost use Rattle.ff_lattice.specs.LevelSet.{levels_where};
ghost use Rattle.ff_lattice.specs.Relation.{related, IsRelation, Closes, AreTurned, Passes, Relates, IsEqual};
ghost use Rattle.ff_lattice.specs.declared.names.TheConstants.{MOST_LEVELS};

use crate::{LevelSet, NoMemory};
use ff_name::Level;
use std::alloc::Global;

/// The table that relates each level below `size` to itself.
pub(crate) fn equality(alloc: Global, size: u8) -> Result<Vec<LevelSet>, NoMemory>
    requires { size ≤ MOST_LEVELS }
    ensures { IfOk result (λ rows. IsEqual size rows.items) }
{
    let mut rows = Vec::new(alloc);
    for number in 0..size {
        rows.push(LevelSet::empty().with(Level(number)))?;
    }
    Ok(rows)
}

/// Relates the level `low` to the level `high`, too.
pub(crate) fn relate(rows: &mut [LevelSet], low: Level, high: Level)
    requires rows { IsRelation (length rows.old) rows.old }
    requires low { low.0 < length rows.old }
    requires high { high.0 < length rows.old }
    ensures { Relates rows.old rows.new low.0 high.0 }
{
    let row = &mut rows[low.0 as usize];
    *row = row.with(high);
}

/// Relates each level that is related to `middle` to all that `middle` is related to.
fn pass(rows: &mut [LevelSet], middle: Level)
    requires rows { IsRelation (length rows.old) rows.old }
    requires middle { middle.0 < length rows.old }
    ensures { Passes rows.old rows.new middle.0 }
{
    let reached = rows[middle.0 as usize];
    for row in rows.iter_mut() {
        if row.has(middle) {
            *row = row.either(reached);
        }
    }
}

/// Relates the levels that chains of the relation join.
pub(crate) fn close(rows: &mut [LevelSet])
    requires { IsRelation (length rows.old) rows.old }
    ensures { Closes rows.old rows.new }
{
    for number in 0..rows.len() as u8 {
        pass(rows, Level(number));
    }
}

/// The levels that are related to `high`.
fn related_to(rows: &[LevelSet], high: Level) -> LevelSet
    requires rows { IsRelation (length rows.now) rows.now }
    requires high { high.0 < MOST_LEVELS }
    ensures { result ≡ levels_where (λ l. related rows.now l high.0) }
{
    let mut levels = LevelSet::empty();
    for (number, row) in rows.iter().enumerate() {
        if row.has(high) {
            levels = levels.with(Level(number as u8));
        }
    }
    levels
}

/// The table of the same relation from its other side.
pub(crate) fn turned(alloc: Global, rows: &[LevelSet]) -> Result<Vec<LevelSet>, NoMemory>
    requires { IsRelation (length rows.now) rows.now }
    ensures { IfOk result (λ down. AreTurned rows.now down.items) }
{
    let mut down = Vec::new(alloc);
    for high in 0..rows.len() as u8 {
        down.push(related_to(rows, Level(high)))?;
    }
    Ok(down)
}
