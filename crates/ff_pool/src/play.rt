//! Playing a list of events.
ghost use Rattle.std.specs.Prelude.{◌≡◌, ◌+◌, ◌≤◌, ℕ, true, false, All, OnOk, OnErr};
ghost use Rattle.ff_machine.specs.Machine.{reactor};
ghost use Rattle.ff_confinement.specs.Worlds.{IsPlayed};
ghost use Rattle.ff_pool.specs.Pooled.{size, played, new_pool};
ghost use Rattle.ff_pool.specs.Events.{events_of, played_one, turns_of_event, turns_of_events, IsEvent};

use crate::event::Event;
use crate::pool::Pool;
use ff_contract::Steps;
use ff_reactor::{NoMemory, Reactor};
use std::alloc::AllocError;
use std::sync::ledger::Ledger;

impl<B: Reactor> Pool<B> {
    /// The events in order, where a step of a level without work changes nothing. `turns` counts
    /// the turns of each class once, as single steps do. After want of memory the pool is spent.
    ///
    /// From a new pool, whatever the events are: the outputs of each level begin what one browser
    /// puts that takes what the level was offered, and are all of that where the level is quiet;
    /// and the class of a level are the levels that were offered the same as it each time.
    pub fn play<C: Ledger, L: Ledger>(
        &mut self,
        events: &[Event<'_>],
        copies: &mut Steps<C>,
        turns: &mut Steps<L>,
    ) -> Result<(), NoMemory>
        requires { self.old.spent ≡ false → All (IsEvent (size self.old)) events.now }
        ensures unspent { OnOk result (self.old.spent ≡ false) }
        ensures done { OnOk result (self.new ≡ played self.old (events_of events.now)) }
        ensures schedule { OnOk result ((n fuel : ℕ) → self.old ≡ new_pool n fuel
            → IsPlayed (reactor fuel) (fuel + 1) self.new.world (events_of events.now)) }
        ensures spent { OnErr result (self.new.spent ≡ true) }
        ensures levels { size self.new ≡ size self.old }
        ensures count { OnOk result (turns.new ≡ turns.old + turns_of_events self.old events.now) }
        ensures most { turns.new ≤ turns.old + turns_of_events self.old events.now }
        ensures turns_later { turns.old ≤ turns.new }
        ensures later { copies.old ≤ copies.new }
    {
        if self.spent() {
            return Err(AllocError);
        }
        for event in events {
            self.happen(event, copies, turns)?;
        }
        Ok(())
    }

    /// One event.
    fn happen<C: Ledger, L: Ledger>(
        &mut self,
        event: &Event<'_>,
        copies: &mut Steps<C>,
        turns: &mut Steps<L>,
    ) -> Result<(), NoMemory>
        requires unspent { self.old.spent ≡ false }
        requires event { IsEvent (size self.old) event.now }
        ensures done { OnOk result (self.new ≡ played_one self.old event.now) }
        ensures spent { OnErr result (self.new.spent ≡ true) }
        ensures levels { size self.new ≡ size self.old }
        ensures count { OnOk result (turns.new ≡ turns.old + turns_of_event self.old event.now) }
        ensures most { turns.new ≤ turns.old + turns_of_event self.old event.now }
        ensures turns_later { turns.old ≤ turns.new }
        ensures later { copies.old ≤ copies.new }
    {
        match event {
            Event::Arrive(offers) => self.arrive(offers, copies),
            Event::Turn(l) => {
                if self.has_work(*l) {
                    self.turn(*l, copies, turns)
                } else {
                    Ok(())
                }
            }
        }
    }
}
