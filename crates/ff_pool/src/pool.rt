//! The pool and its single steps.
ghost use Rattle.std.specs.Prelude.{◌≡◌, ◌+◌, ◌<◌, ◌≤◌, ◌↔◌, true, false, not, All, IsTrue, IfOk, OnOk, OnErr, map};
ghost use Rattle.ff_reactor.specs.declared.reactor.TheConstants.{MOST_BUDGET};
ghost use Rattle.ff_lattice.specs.declared.names.TheConstants.{MOST_LEVELS};
ghost use Rattle.ff_confinement.specs.Worlds.{leader};
ghost use Rattle.ff_pool.specs.Draining.{IsOnward, steps_left};
ghost use Rattle.ff_pool.specs.Classes.{class_of};
ghost use Rattle.ff_pool.specs.Pooled as pooled;
ghost use Rattle.ff_pool.specs.Pooled.{size, copy_of, new_pool, arrived, turned, taken, step_turns, left, AreOffersTo, IsPool};
ghost use Rattle.ff_pool.specs.Restored.{pool_recs, IsReady, IsResting};
ghost use Rattle.ff_records.specs.Restored.{Restores};

use crate::classes::class_of;
use crate::group::Group;
use crate::leading::leaders_of;
use crate::outs::Outs;
use crate::parts::Parts;
use crate::restoring::{Browsers, led_heads, no_outs};
use ff_contract::Steps;
use ff_lattice::LevelSet;
use ff_name::Level;
use ff_reactor::{NoMemory, Reactor};
use ff_value::{Offers, Out};
use std::alloc::{AllocError, Global};
use std::marker::Model;
use std::sync::ledger::Ledger;

/// One copy of a browser `B` for each level, where the levels of one class share theirs.
pub struct Pool<B: Reactor> {
    alloc: Global,
    fuel: u32,
    /// Set while a call changes the parts, so it stays set where the call finds no memory.
    spent: bool,
    parts: Parts<B>,
}

// Written out, so that the proof of a caller sees one call and not a part for each field.
impl<B: Reactor> Drop for Pool<B> {
    fn drop(self) {
        let Pool {
            alloc: _,
            fuel: _,
            spent: _,
            parts: _parts,
        } = self;
    }
}

impl<B: Reactor> Model for Pool<B> {
    ghost use Rattle.std.specs.Prelude.{◌≡◌, false};
    ghost use Rattle.ff_pool.specs.Pooled.{Pooled, coded_pooled, seen};
    ghost use Rattle.ff_pool.specs.Heads.{IsKept};

    ghost Value = { Pooled };

    ghost coded = { coded_pooled };

    ghost view = { λ p. seen p.fuel p.spent p.parts.heads.items p.parts.puts.items
        p.parts.leaders.items };

    ghost invariant = { λ p. p.spent ≡ false
        → IsKept p.fuel p.parts.heads.items p.parts.puts.items p.parts.leaders.items };
}

impl<B: Reactor> Pool<B> {
    /// A pool of `n` levels, from 1 to `MOST_LEVELS`, all in one class, to whose browsers each
    /// input brings so much fuel, from 1 to `MOST_BUDGET`.
    #[tactic(auto, using(crate::proofs::Making::made_more))]
    pub fn new(alloc: Global, n: u8, fuel: u32) -> Result<Pool<B>, NoMemory>
        requires some { 1 ≤ n }
        requires most { n ≤ MOST_LEVELS }
        requires fuel_some { 1 ≤ fuel }
        requires fuel_most { fuel ≤ MOST_BUDGET }
        ensures { IfOk result (λ pool. pool ≡ new_pool n fuel) }
    {
        let mut heads = Vec::new(alloc);
        let mut puts = Vec::new(alloc);
        let mut leaders = Vec::new(alloc);
        for _level in 0..n {
            heads.push(Group::new(alloc, fuel))?;
            puts.push(Outs::new(alloc))?;
            leaders.push(0)?;
        }
        Ok(Pool {
            alloc,
            fuel,
            spent: false,
            parts: Parts {
                heads,
                puts,
                leaders,
            },
        })
    }

    /// A pool of `n` levels, at most `MOST_LEVELS`, in these classes and with these browsers, to
    /// which each input brings so much fuel, from 1 to `MOST_BUDGET`. No input waits, and all
    /// outputs were taken. `None` exactly where the classes are no partition of the levels, each
    /// once and by their least levels in rising order, or aren't as many as the browsers.
    pub fn restore(
        alloc: Global,
        n: u8,
        fuel: u32,
        classes: &[LevelSet],
        browsers: Browsers<B>,
    ) -> Result<Option<Pool<B>>, NoMemory>
        requires most { n ≤ MOST_LEVELS }
        requires fuel_some { 1 ≤ fuel }
        requires fuel_most { fuel ≤ MOST_BUDGET }
        requires ready { All (λ browser. IsReady fuel (B.state browser)) browsers }
        ensures { IfOk result (Restores (IsResting n fuel) pool_recs
            (record { classes = classes.now; browsers = map B.state browsers })) }
    {
        if classes.len() != browsers.len() {
            return Ok(None);
        }
        let Some(leaders) = leaders_of(alloc, n, classes)? else {
            return Ok(None);
        };
        let heads = led_heads(alloc, fuel, leaders.as_slice(), browsers)?;
        let puts = no_outs(alloc, n)?;
        Ok(Some(Pool {
            alloc,
            fuel,
            spent: false,
            parts: Parts {
                heads,
                puts,
                leaders: leaders.into_vec(),
            },
        }))
    }

    /// Whether a call that changes this pool found no memory.
    pub fn spent(&self) -> bool
        ensures answer { result ≡ self.now.spent }
        ensures valid { self.now.spent ≡ false → IsPool self.now }
        ensures few { self.now.spent ≡ false → size self.now ≤ MOST_LEVELS }
    {
        self.spent
    }

    /// The number of levels.
    pub fn size(&self) -> u8
        requires { self.now.spent ≡ false }
        ensures { result ≡ size self.now }
    {
        self.parts.leaders.len() as u8
    }

    /// Whether the level is the least of its class.
    pub(crate) fn leads(&self, l: Level) -> bool
        requires unspent { self.now.spent ≡ false }
        requires level { l.0 < size self.now }
        ensures { IsTrue result ↔ (leader self.now.world.leaders l.0 ≡ l.0) }
    {
        let l = usize::from(l.0);
        self.parts.leaders[l] == l
    }

    /// Whether the level's browser isn't quiet or an input waits for it.
    pub fn has_work(&self, l: Level) -> bool
        requires unspent { self.now.spent ≡ false }
        requires level { l.0 < size self.now }
        ensures { result ≡ pooled.has_work self.now l.0 }
    {
        self.parts.has_work(usize::from(l.0))
    }

    /// Whether the level's browser is quiet and no input waits for it.
    pub fn quiet(&self, l: Level) -> bool
        requires unspent { self.now.spent ≡ false }
        requires level { l.0 < size self.now }
        ensures { result ≡ not (pooled.has_work self.now l.0) }
    {
        !self.has_work(l)
    }

    /// The class of a level: the levels that were offered the same as it each time.
    pub fn members(&self, l: Level) -> LevelSet
        requires unspent { self.now.spent ≡ false }
        requires level { l.0 < size self.now }
        ensures { result ≡ class_of self.now.world.leaders l.0 }
    {
        class_of(self.parts.leaders.as_slice(), usize::from(l.0))
    }

    /// The browser of a level.
    pub fn browser(&self, l: Level) -> &B
        requires unspent { self.now.spent ≡ false }
        requires level { l.0 < size self.now }
        ensures { B.state result.now ≡ (copy_of self.now l.0).state }
    {
        self.parts.browser(usize::from(l.0))
    }

    /// Puts each level's offer, where there is one, behind the inputs that wait for it. Levels of a
    /// class with different offers part, and each class copies the input that it is offered once.
    /// After want of memory the pool is spent.
    pub fn arrive<C: Ledger>(
        &mut self,
        offers: &Offers<'_>,
        copies: &mut Steps<C>,
    ) -> Result<(), NoMemory>
        requires { self.old.spent ≡ false → AreOffersTo self.old offers.now }
        ensures unspent { OnOk result (self.old.spent ≡ false) }
        ensures done { OnOk result (self.new ≡ arrived self.old offers.now) }
        ensures spent { OnErr result (self.new.spent ≡ true) }
        ensures levels { size self.new ≡ size self.old }
        ensures copies { copies.new ≡ copies.old }
    {
        if self.spent {
            return Err(AllocError);
        }
        self.spent = true;
        self.parts.arrive(self.alloc, offers, copies)?;
        self.spent = false;
        Ok(())
    }

    /// One step of the level's class: where its browser is quiet it takes the first input that
    /// waits, and else it makes one turn, which `turns` counts once for the whole class; `copies`
    /// counts the cells that the turn copies, at most `turning` of the browser's state. After want
    /// of memory the pool is spent.
    pub fn turn<C: Ledger, L: Ledger>(
        &mut self,
        l: Level,
        copies: &mut Steps<C>,
        turns: &mut Steps<L>,
    ) -> Result<(), NoMemory>
        requires { self.old.spent ≡ false → l.0 < size self.old }
        ensures unspent { OnOk result (self.old.spent ≡ false) }
        ensures done { OnOk result (self.new ≡ turned self.old l.0) }
        ensures spent { OnErr result (self.new.spent ≡ true) }
        ensures levels { size self.new ≡ size self.old }
        ensures count { OnOk result (turns.new ≡ turns.old + step_turns self.old l.0) }
        ensures most { turns.new ≤ turns.old + step_turns self.old l.0 }
        ensures turns_later { turns.old ≤ turns.new }
        ensures later { copies.old ≤ copies.new }
        ensures copies { (copy_of self.old l.0).state.quiet ≡ false
            → copies.new ≤ copies.old + B.turning (copy_of self.old l.0).state }
    {
        if self.spent {
            return Err(AllocError);
        }
        self.spent = true;
        self.parts
            .step(self.alloc, usize::from(l.0), copies, turns)?;
        self.spent = false;
        Ok(())
    }

    /// One step of the class of a level that has work, and up to `more` further ones as long as it
    /// has some. After want of memory the pool is spent.
    pub(crate) fn visit<C: Ledger, L: Ledger>(
        &mut self,
        l: Level,
        more: u32,
        copies: &mut Steps<C>,
        turns: &mut Steps<L>,
    ) -> Result<(), NoMemory>
        requires unspent { self.old.spent ≡ false }
        requires level { l.0 < size self.old }
        requires work { pooled.has_work self.old l.0 ≡ true }
        ensures on { OnOk result (IsOnward self.old turns.old self.new turns.new) }
        ensures fewer { OnOk result (steps_left self.new < steps_left self.old) }
        ensures spent { OnErr result (self.new.spent ≡ true) }
        ensures levels { size self.new ≡ size self.old }
        ensures most { turns.new ≤ turns.old + left self.old }
        ensures turns_later { turns.old ≤ turns.new }
        ensures later { copies.old ≤ copies.new }
    {
        self.spent = true;
        self.parts
            .steps(self.alloc, usize::from(l.0), more, copies, turns)?;
        self.spent = false;
        Ok(())
    }

    /// The outputs that the level's copy put since the last take of this level. Those of the other
    /// levels of its class stay.
    pub fn take(&mut self, l: Level) -> Result<Vec<Out>, NoMemory>
        requires { self.old.spent ≡ false → l.0 < size self.old }
        ensures unspent { OnOk result (self.old.spent ≡ false) }
        ensures done { OnOk result (self.new ≡ taken self.old l.0) }
        ensures outputs { IfOk result (λ outs. outs.items ≡ (copy_of self.old l.0).outputs) }
        ensures spent { OnErr result (self.new.spent ≡ true) }
        ensures levels { size self.new ≡ size self.old }
    {
        if self.spent {
            return Err(AllocError);
        }
        Ok(self.parts.puts[usize::from(l.0)].take())
    }

    /// An equal pool, and neither changes with the other. Want of memory leaves this pool as it is.
    pub fn fork<C: Ledger>(&self, copies: &mut Steps<C>) -> Result<Pool<B>, NoMemory>
        ensures unspent { OnOk result (self.now.spent ≡ false) }
        ensures equal { IfOk result (λ pool. pool ≡ self.now) }
        ensures copies { copies.new ≡ copies.old }
    {
        if self.spent {
            return Err(AllocError);
        }
        Ok(Pool {
            alloc: self.alloc,
            fuel: self.fuel,
            spent: false,
            parts: self.parts.fork(self.alloc, copies)?,
        })
    }
}
