//! Draining: class after class makes steps until no level has work.
ghost use Rattle.std.specs.Prelude.{◌≡◌, ◌+◌, ◌<◌, ◌≤◌, ℕ, true, false, None, IfSome, OnOk, OnErr};
ghost use Rattle.ff_confinement.specs.Worlds.{leader};
ghost use Rattle.ff_pool.specs.Pooled as pooled;
ghost use Rattle.ff_pool.specs.Pooled.{size, drained, left};

use crate::pool::Pool;
use ff_contract::Steps;
use ff_name::Level;
use ff_reactor::{NoMemory, Reactor};
use std::alloc::AllocError;
use std::sync::ledger::Ledger;

impl<B: Reactor> Pool<B> {
    /// Lets all classes make steps until every level is quiet and no input waits. It visits the
    /// classes in the order of their least levels, again and again, for at most `slice` steps each.
    /// `turns` counts the turns of each class once. After want of memory the pool is spent.
    pub fn drain<C: Ledger, L: Ledger>(
        &mut self,
        slice: u32,
        copies: &mut Steps<C>,
        turns: &mut Steps<L>,
    ) -> Result<(), NoMemory>
        requires { 0 < slice }
        ensures unspent { OnOk result (self.old.spent ≡ false) }
        ensures done { OnOk result (self.new ≡ drained self.old) }
        ensures rests { OnOk result ((l : ℕ) → l < size self.new
            → pooled.has_work self.new l ≡ false) }
        ensures spent { OnErr result (self.new.spent ≡ true) }
        ensures levels { size self.new ≡ size self.old }
        ensures count { OnOk result (turns.new ≡ turns.old + left self.old) }
        ensures most { turns.new ≤ turns.old + left self.old }
        ensures turns_later { turns.old ≤ turns.new }
        ensures later { copies.old ≤ copies.new }
    {
        if self.spent() {
            return Err(AllocError);
        }
        let mut next = 0;
        while let Some(l) = self.next_work(next) {
            self.visit(l, slice - 1, copies, turns)?;
            next = l.0 + 1;
        }
        Ok(())
    }

    /// The next class that has work, by its least level: from this level on, and then from the
    /// first.
    fn next_work(&self, from: u8) -> Option<Level>
        requires unspent { self.now.spent ≡ false }
        requires from { from ≤ size self.now }
        ensures found { IfSome result (λ l. (l.0 < size self.now)
            × (pooled.has_work self.now l.0 ≡ true)) }
        ensures none { result ≡ None → (l : ℕ) → l < size self.now
            → leader self.now.world.leaders l ≡ l → pooled.has_work self.now l ≡ false }
    {
        match self.first_work(from, self.size()) {
            Some(l) => Some(l),
            None => self.first_work(0, from),
        }
    }

    /// The first of these levels that leads a class with work.
    fn first_work(&self, from: u8, to: u8) -> Option<Level>
        requires unspent { self.now.spent ≡ false }
        requires to { to ≤ size self.now }
        ensures found { IfSome result (λ l. (l.0 < size self.now)
            × (pooled.has_work self.now l.0 ≡ true)) }
        ensures none { result ≡ None → (l : ℕ) → from ≤ l → l < to
            → leader self.now.world.leaders l ≡ l → pooled.has_work self.now l ≡ false }
    {
        for number in from..to {
            let l = Level(number);
            if self.leads(l) && self.has_work(l) {
                return Some(l);
            }
        }
        None
    }
}
