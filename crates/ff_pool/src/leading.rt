//! Which levels lead classes that are given as sets of levels.
//!
//! Classes that are given are checked by being made again: each level is led by the least level of
//! the first class that has it, and where these are leaders, the classes that they make are
//! compared with those that were given. So there is no second definition of a partition.
ghost use Rattle.std.specs.Prelude.{◌≡◌, ◌<◌, ◌≤◌, ◌↔◌, All, None, false, IfOk, IfSome, IsTrue, length};
ghost use Rattle.ff_lattice.specs.LevelSet.{has};
ghost use Rattle.ff_lattice.specs.declared.names.TheConstants.{MOST_LEVELS};
ghost use Rattle.ff_confinement.specs.Worlds.{AreLeaders};
ghost use Rattle.ff_pool.specs.Classes.{classes_of, IsLed, IsLeastWith, LedBy, MayBeLedBy};

use crate::classes::class_of;
use ff_lattice::{LevelSet, MOST_LEVELS};
use ff_name::{Level, NoMemory};
use ff_shared::OwnedList;
use std::alloc::Global;

/// For each level the least level of its class.
pub(crate) type Leaders = OwnedList<usize>;

/// The leaders of `n` levels in these classes, or `None` exactly where the classes are no partition
/// of the levels in the order of their least levels.
pub(crate) fn leaders_of(
    alloc: Global,
    n: u8,
    classes: &[LevelSet],
) -> Result<Option<Leaders>, NoMemory>
    requires { n ≤ MOST_LEVELS }
    ensures { IfOk result (LedBy n classes.now) }
{
    let Some(leaders) = least_levels(alloc, n, classes)? else {
        return Ok(None);
    };
    if !are_leaders(leaders.as_slice()) {
        return Ok(None);
    }
    let made = classes_of(alloc, leaders.as_slice())?;
    if made.as_slice() != classes {
        return Ok(None);
    }
    Ok(Some(leaders))
}

/// For each level the least level of a class that has it, or `None` where no class has one of them.
fn least_levels(alloc: Global, n: u8, classes: &[LevelSet]) -> Result<Option<Leaders>, NoMemory>
    requires { n ≤ MOST_LEVELS }
    ensures { IfOk result (MayBeLedBy n classes.now) }
{
    let mut leaders = Vec::new(alloc);
    for l in 0..n {
        match least_with(classes, Level(l)) {
            Some(least) => leaders.push(usize::from(least.0))?,
            None => return Ok(None),
        }
    }
    Ok(Some(OwnedList::from_vec(leaders)))
}

/// The least level of the first class that has this level.
fn least_with(classes: &[LevelSet], l: Level) -> Option<Level>
    requires { l.0 < MOST_LEVELS }
    ensures none { result ≡ None → All (λ class. has class l.0 ≡ false) classes.now }
    ensures found { IfSome result (λ least. IsLeastWith classes.now l.0 least.0) }
{
    for k in 0..classes.len() {
        if classes[k].has(l) {
            return classes[k].least();
        }
    }
    None
}

/// Whether each of these levels leads itself, and none leads a level before it.
fn are_leaders(leaders: &[usize]) -> bool
    ensures { IsTrue result ↔ AreLeaders leaders.now }
{
    for l in 0..leaders.len() {
        if !is_led(leaders, l) {
            return false;
        }
    }
    true
}

/// Whether the leader of this level is at or before it and leads itself.
fn is_led(leaders: &[usize], l: usize) -> bool
    requires { l < length leaders.now }
    ensures { IsTrue result ↔ IsLed leaders.now l }
{
    let top = leaders[l];
    top <= l && leaders[top] == top
}

/// The classes of these leaders, in rising order of the leaders.
fn classes_of(alloc: Global, leaders: &[usize]) -> Result<Vec<LevelSet>, NoMemory>
    requires { length leaders.now ≤ MOST_LEVELS }
    ensures { IfOk result (λ classes. classes.items ≡ classes_of leaders.now) }
{
    let mut classes = Vec::new(alloc);
    for l in 0..leaders.len() {
        if leaders[l] == l {
            classes.push(class_of(leaders, l))?;
        }
    }
    Ok(classes)
}
