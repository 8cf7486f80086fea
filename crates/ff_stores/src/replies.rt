//! Replies: what they answer, what they weigh, and the slots that they fill.
ghost use Rattle.std.specs.Prelude.{◌≡◌, ◌*◌, ◌<◌, ◌≤◌, None, Some, cond, length, IfOk, OnOk, MatchOption};
ghost use Rattle.ff_contract.specs.Rises.{RisesBy};
ghost use Rattle.ff_tree.specs.Spelled.{IsWellSpelledExpr};
ghost use Rattle.ff_machine.specs.Net as net;
ghost use Rattle.ff_machine.specs.Stores as s;
ghost use Rattle.ff_machine.specs.Windows as windows;
ghost use Rattle.ff_operators.specs.declared.limits.TheConstants.{MOST_MASS};

use crate::stores::Stores;
use ff_contract::Steps;
use ff_machine::Pending;
use ff_name::{Domain, NoMemory};
use ff_operators::{MOST_MASS, or_emptied};
use ff_value::{Body, PageId};
use std::sync::ledger::Ledger;

impl Stores {
    /// Takes out the pending request of a domain that a reply answers: the one at a place, counted
    /// from 0. `None` exactly where fewer are pending, and then nothing has changed.
    pub fn take_answer<C: Ledger>(
        &mut self,
        domain: &Domain,
        k: u32,
        copies: &mut Steps<C>,
    ) -> Result<Option<Pending>, NoMemory>
        ensures done { IfOk result (λ answer. MatchOption answer
            ((s.take_answer self.old domain.now k ≡ None) × (self.new ≡ self.old))
            (λ pending. s.take_answer self.old domain.now k ≡ Some (pending, self.new))) }
        ensures copies { RisesBy (17 * length (net.asked self.old.requests domain.now)) copies.old
            copies.new }
    {
        or_emptied!(self.requests.answer(domain, k, copies), nothing_left!(self))
    }

    /// The mass grows by so much, in bytes, where its limit allows it; answers whether it does.
    pub fn weigh(&mut self, weight: u64) -> bool
        ensures answer { result ≡ s.may_weigh self.old weight }
        ensures done { self.new ≡ cond (s.may_weigh self.old weight) (s.weighed self.old weight)
            self.old }
    {
        if !self.may_weigh(weight) {
            return false;
        }
        self.mass += weight;
        true
    }

    /// Whether so much more, in bytes, is within the limit of the mass.
    pub fn may_weigh(&self, weight: u64) -> bool
        ensures { result ≡ s.may_weigh self.now weight }
    {
        weight <= MOST_MASS - self.mass
    }

    /// The mass is so much, in bytes, from now on: what an operator that makes a text answers.
    pub fn set_mass(&mut self, mass: u64)
        requires { mass ≤ MOST_MASS }
        ensures { self.new ≡ record self.old { mass = mass } }
    {
        self.mass = mass;
    }

    /// The slot of a page becomes the script, where it waits. Answers whether it did.
    pub fn fill_slot<C: Ledger>(
        &mut self,
        page: PageId,
        slot: u32,
        body: &Body,
        copies: &mut Steps<C>,
    ) -> Result<bool, NoMemory>
        requires page { page.0 < length self.old.windows.pages }
        requires spelled { IsWellSpelledExpr body.now }
        ensures done { OnOk result (self.new ≡ s.fill_slot self.old page slot body.now) }
        ensures waited { IfOk result (λ waited. waited ≡ windows.waits self.old.windows page slot) }
        ensures copies { RisesBy 33 copies.old copies.new }
    {
        or_emptied!(
            self.windows.fill(page, slot, body, copies),
            nothing_left!(self)
        )
    }
}
