//! How classes part: which level leads which class after an arrival.
ghost use Rattle.std.specs.Prelude.{◌≡◌, ◌<◌, ◌≤◌, ◌↔◌, length, IfOk, IsTrue};
ghost use Rattle.ff_lattice.specs.declared.names.TheConstants.{MOST_LEVELS};
ghost use Rattle.ff_confinement.specs.Worlds.{keep_together, new_leader, split, AreLeaders};
ghost use Rattle.ff_value.specs.Same.{same_input};
ghost use Rattle.ff_pool.specs.Classes.{class_of};

use ff_lattice::LevelSet;
use ff_name::{Level, NoMemory};
use ff_value::Offers;
use std::alloc::Global;

/// Whether the levels of each class are offered the same, so that no class parts.
#[tactic(auto, using(crate::proofs::Parting::unparted, crate::proofs::Parting::kept))]
pub(crate) fn stay(leaders: &[usize], offers: &Offers<'_>) -> bool
    requires led { AreLeaders leaders.now }
    requires count { length offers.now ≡ length leaders.now }
    ensures { IsTrue result ↔ (split same_input leaders.now offers.now ≡ leaders.now) }
{
    for l in 0..leaders.len() {
        if !keep_together(leaders, offers, leaders[l], l) {
            return false;
        }
    }
    true
}

/// The leaders where levels with different offers part.
#[tactic(auto, using(crate::proofs::Parting::split_more))]
pub(crate) fn split(
    alloc: Global,
    leaders: &[usize],
    offers: &Offers<'_>,
) -> Result<Vec<usize>, NoMemory>
    requires { length offers.now ≡ length leaders.now }
    ensures { IfOk result (λ new. new.items ≡ split same_input leaders.now offers.now) }
{
    let mut new = Vec::new(alloc);
    for l in 0..leaders.len() {
        new.push(new_leader(leaders, offers, l))?;
    }
    Ok(new)
}

/// The least level that keeps together with this one.
fn new_leader(leaders: &[usize], offers: &Offers<'_>, l: usize) -> usize
    requires level { l < length leaders.now }
    requires count { length offers.now ≡ length leaders.now }
    ensures { result ≡ new_leader same_input leaders.now offers.now l }
{
    for k in 0..l {
        if keep_together(leaders, offers, k, l) {
            return k;
        }
    }
    l
}

/// Whether two levels are of one class and are offered the same.
fn keep_together(leaders: &[usize], offers: &Offers<'_>, k: usize, l: usize) -> bool
    requires first { k < length leaders.now }
    requires second { l < length leaders.now }
    requires count { length offers.now ≡ length leaders.now }
    ensures { result ≡ keep_together same_input leaders.now offers.now k l }
{
    leaders[k] == leaders[l] && offers.same(k, l)
}

/// The levels of a level's class.
pub(crate) fn class_of(leaders: &[usize], l: usize) -> LevelSet
    requires level { l < length leaders.now }
    requires few { length leaders.now ≤ MOST_LEVELS }
    ensures { result ≡ class_of leaders.now l }
{
    let mut class = LevelSet::empty();
    for k in 0..leaders.len() {
        if leaders[k] == leaders[l] {
            class = class.with(Level(k as u8));
        }
    }
    class
}
