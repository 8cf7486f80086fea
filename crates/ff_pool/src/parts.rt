//! The parts of a pool, and what a call makes of them.
//!
//! A call changes them one after another, and in the middle of it they may be those of no pool. So
//! what holds of them is the invariant of [`Pool`](crate::Pool), owed once, at the return.
ghost use Rattle.std.specs.Prelude.{◌≡◌, ◌+◌, ◌<◌, ◌≤◌, ℕ, [], false, length, slice_set, All, IfOk, OnOk, OnErr};
ghost use Rattle.ff_value.specs.Spelled.{IsWellSpelledInput};
ghost use Rattle.ff_confinement.specs.Worlds.{leader, split, AreLeaders};
ghost use Rattle.ff_value.specs.Same.{same_input};
ghost use Rattle.ff_pool.specs.Heads.{Head, HasArrived, HasForked, IsClassStepped, MayCount, step_of, step_head, head_works, head_turns, led_head, given};

use crate::classes::{split, stay};
use crate::group::Group;
use crate::heads::{fork_heads, forked_heads, forked_outs, offer_heads};
use crate::outs::Outs;
use ff_contract::Steps;
use ff_reactor::{NoMemory, Reactor};
use ff_value::{Offers, Out};
use std::alloc::Global;
use std::sync::ledger::Ledger;

/// What a pool holds for its levels.
pub(crate) struct Parts<B: Reactor> {
    /// The copies of the classes, at the places of the levels that lead them.
    pub(crate) heads: Vec<Group<B>>,
    /// The outputs of each level.
    pub(crate) puts: Vec<Outs>,
    /// For each level the least level of its class.
    pub(crate) leaders: Vec<usize>,
}

// Written out, so that the proof of a caller sees one call and not a part for each field.
impl<B: Reactor> Drop for Parts<B> {
    fn drop(self) {
        let Parts {
            heads: _heads,
            puts: _puts,
            leaders: _leaders,
        } = self;
    }
}

impl<B: Reactor> Parts<B> {
    /// Whether the class of a level has work.
    pub(crate) fn has_work(&self, l: usize) -> bool
        requires level { l < length self.now.leaders.items }
        requires led { leader self.now.leaders.items l < length self.now.heads.items }
        ensures { (d : Head) → result
            ≡ head_works (led_head self.now.heads.items self.now.leaders.items l d) }
    {
        self.heads[self.leaders[l]].has_work()
    }

    /// The browser of a level's class.
    pub(crate) fn browser(&self, l: usize) -> &B
        requires level { l < length self.now.leaders.items }
        requires led { leader self.now.leaders.items l < length self.now.heads.items }
        ensures { (d : Head) → B.state result.now
            ≡ (led_head self.now.heads.items self.now.leaders.items l d).state }
    {
        self.heads[self.leaders[l]].browser()
    }

    /// One step of a level's class: its one browser makes it, and each level of the class gets what
    /// it puts.
    pub(crate) fn step<C: Ledger, L: Ledger>(
        &mut self,
        alloc: Global,
        l: usize,
        copies: &mut Steps<C>,
        turns: &mut Steps<L>,
    ) -> Result<(), NoMemory>
        requires level { l < length self.old.leaders.items }
        requires led { leader self.old.leaders.items l < length self.old.heads.items }
        requires count { length self.old.puts.items ≡ length self.old.leaders.items }
        requires spelled { (d : Head) → All IsWellSpelledInput
            (led_head self.old.heads.items self.old.leaders.items l d).inbox }
        ensures done { OnOk result ((d : Head) → self.new.heads.items
            ≡ slice_set self.old.heads.items (leader self.old.leaders.items l)
            (step_head (led_head self.old.heads.items self.old.leaders.items l d))) }
        ensures outputs { OnOk result ((d : Head) → self.new.puts.items
            ≡ given self.old.puts.items self.old.leaders.items (leader self.old.leaders.items l)
            (step_of (led_head self.old.heads.items self.old.leaders.items l d)).outputs) }
        ensures leaders { self.new.leaders.items ≡ self.old.leaders.items }
        ensures count { OnOk result ((d : Head) → turns.new ≡ turns.old + head_turns
            (led_head self.old.heads.items self.old.leaders.items l d)) }
        ensures most { (d : Head) → turns.new ≤ turns.old + head_turns
            (led_head self.old.heads.items self.old.leaders.items l d) }
        ensures turns_later { turns.old ≤ turns.new }
        ensures later { copies.old ≤ copies.new }
        ensures copies { (d : Head)
            → (led_head self.old.heads.items self.old.leaders.items l d).state.quiet ≡ false
            → copies.new ≤ copies.old
            + B.turning (led_head self.old.heads.items self.old.leaders.items l d).state }
    {
        let top = self.leaders[l];
        let mut outs = Vec::new(alloc);
        self.heads[top].step(&mut outs, copies, turns)?;
        give(
            &mut self.puts,
            self.leaders.as_slice(),
            top,
            outs.as_slice(),
        )
    }

    /// One step of a level's class, and up to `more` further ones as long as it has work.
    pub(crate) fn steps<C: Ledger, L: Ledger>(
        &mut self,
        alloc: Global,
        l: usize,
        more: u32,
        copies: &mut Steps<C>,
        turns: &mut Steps<L>,
    ) -> Result<(), NoMemory>
        requires level { l < length self.old.leaders.items }
        requires led { leader self.old.leaders.items l < length self.old.heads.items }
        requires count { length self.old.puts.items ≡ length self.old.leaders.items }
        requires spelled { (d : Head) → All IsWellSpelledInput
            (led_head self.old.heads.items self.old.leaders.items l d).inbox }
        ensures done { OnOk result (IsClassStepped self.old.heads.items self.old.puts.items
            self.old.leaders.items l turns.old self.new.heads.items self.new.puts.items turns.new) }
        ensures leaders { self.new.leaders.items ≡ self.old.leaders.items }
        ensures most { OnErr result ((d : Head) → MayCount
            (led_head self.old.heads.items self.old.leaders.items l d) [] turns.old
            turns.new) }
        ensures turns_later { turns.old ≤ turns.new }
        ensures later { copies.old ≤ copies.new }
    {
        let top = self.leaders[l];
        let mut outs = Vec::new(alloc);
        self.heads[top].steps(more, &mut outs, copies, turns)?;
        give(
            &mut self.puts,
            self.leaders.as_slice(),
            top,
            outs.as_slice(),
        )
    }

    /// The offers arrive: the leaders part, new ones get forks of the browsers that led them, and
    /// each class gets its offer.
    pub(crate) fn arrive<C: Ledger>(
        &mut self,
        alloc: Global,
        offers: &Offers<'_>,
        copies: &mut Steps<C>,
    ) -> Result<(), NoMemory>
        requires heads { length self.old.heads.items ≡ length self.old.leaders.items }
        requires count { length offers.now ≡ length self.old.leaders.items }
        requires led { AreLeaders self.old.leaders.items }
        ensures leaders { OnOk result (self.new.leaders.items
            ≡ split same_input self.old.leaders.items offers.now) }
        ensures levels { length self.new.leaders.items ≡ length self.old.leaders.items }
        ensures heads { length self.new.heads.items ≡ length self.old.heads.items }
        ensures arrived { OnOk result ((d : Head) → HasArrived self.old.leaders.items offers.now
            self.old.heads.items self.new.heads.items d) }
        ensures puts { self.new.puts.items ≡ self.old.puts.items }
        ensures copies { copies.new ≡ copies.old }
    {
        self.part(alloc, offers, copies)?;
        offer_heads(self.heads.as_mut_slice(), self.leaders.as_slice(), offers)
    }

    /// Classes whose levels are offered different things part, and new leaders get forks of the
    /// browsers that led them. Where none parts, this takes no memory.
    fn part<C: Ledger>(
        &mut self,
        alloc: Global,
        offers: &Offers<'_>,
        copies: &mut Steps<C>,
    ) -> Result<(), NoMemory>
        requires heads { length self.old.heads.items ≡ length self.old.leaders.items }
        requires count { length offers.now ≡ length self.old.leaders.items }
        requires led { AreLeaders self.old.leaders.items }
        ensures leaders { OnOk result (self.new.leaders.items
            ≡ split same_input self.old.leaders.items offers.now) }
        ensures levels { length self.new.leaders.items ≡ length self.old.leaders.items }
        ensures heads { length self.new.heads.items ≡ length self.old.heads.items }
        ensures forked { OnOk result (HasForked self.old.leaders.items self.new.leaders.items
            self.old.heads.items self.new.heads.items) }
        ensures puts { self.new.puts.items ≡ self.old.puts.items }
        ensures copies { copies.new ≡ copies.old }
    {
        if stay(self.leaders.as_slice(), offers) {
            return Ok(());
        }
        let new = split(alloc, self.leaders.as_slice(), offers)?;
        fork_heads(
            self.heads.as_mut_slice(),
            self.leaders.as_slice(),
            new.as_slice(),
            copies,
        )?;
        self.leaders = new;
        Ok(())
    }

    /// Equal parts, and neither change with the others.
    pub(crate) fn fork<C: Ledger>(
        &self,
        alloc: Global,
        copies: &mut Steps<C>,
    ) -> Result<Parts<B>, NoMemory>
        ensures heads { IfOk result (λ parts. parts.heads.items ≡ self.now.heads.items) }
        ensures puts { IfOk result (λ parts. parts.puts.items ≡ self.now.puts.items) }
        ensures leaders { IfOk result (λ parts. parts.leaders.items ≡ self.now.leaders.items) }
        ensures copies { copies.new ≡ copies.old }
    {
        Ok(Parts {
            heads: forked_heads(alloc, self.heads.as_slice(), copies)?,
            puts: forked_outs(alloc, self.puts.as_slice())?,
            leaders: Vec::from_slice(alloc, self.leaders.as_slice())?,
        })
    }
}

/// Puts the outputs of a class behind those of each of its levels.
fn give(puts: &mut Vec<Outs>, leaders: &[usize], top: usize, outs: &[Out]) -> Result<(), NoMemory>
    requires { length puts.old.items ≡ length leaders.now }
    ensures { OnOk result (puts.new.items ≡ given puts.old.items leaders.now top outs.now) }
{
    if outs.is_empty() {
        return Ok(());
    }
    for k in 0..leaders.len() {
        if leaders[k] == top {
            puts[k].append(outs)?;
        }
    }
    Ok(())
}
