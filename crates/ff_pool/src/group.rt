//! The copy of one class: a browser, and the inputs that wait for it.
ghost use Rattle.std.specs.Prelude.{◌≡◌, ◌+◌, ◌≤◌, ◌++◌, ◌∷◌, [], false, All, IfOk, OnOk, OnErr, Some};
ghost use Rattle.ff_value.specs.Spelled.{IsWellSpelledInput};
ghost use Rattle.ff_machine.specs.Valid.{IsState};
ghost use Rattle.ff_reactor.specs.declared.reactor.TheConstants.{MOST_BUDGET};
ghost use Rattle.ff_pool.specs.Heads.{IsStepped, MayCount, new_head, step_of, step_head, offer_head, head_works, head_turns};

use crate::inbox::Inbox;
use ff_contract::Steps;
use ff_reactor::{NoMemory, Reactor};
use ff_value::{Input, Out};
use std::alloc::Global;
use std::marker::Model;
use std::sync::ledger::Ledger;

/// A browser, and the inputs that wait for it in order.
#[derive(Drop)]
pub(crate) struct Group<B: Reactor> {
    browser: B,
    inbox: Inbox,
}

impl<B: Reactor> Model for Group<B> {
    ghost use Rattle.ff_pool.specs.Heads.{Head, coded_head};

    ghost Value = { Head };

    ghost coded = { coded_head };

    ghost view = { λ g. record { state = B.state g.browser; inbox = g.inbox } };
}

impl<B: Reactor> Group<B> {
    /// A browser to which each input brings so much fuel, from 1 to `MOST_BUDGET`. Nothing waits
    /// for it.
    pub(crate) fn new(alloc: Global, fuel: u32) -> Group<B>
        requires some { 1 ≤ fuel }
        requires few { fuel ≤ MOST_BUDGET }
        ensures { result ≡ new_head fuel }
    {
        Group {
            browser: B::new(alloc, fuel),
            inbox: Inbox::new(alloc),
        }
    }

    /// A group of this browser. Nothing waits for it.
    pub(crate) fn of(alloc: Global, browser: B) -> Group<B>
        ensures made { result ≡ record { state = B.state browser; inbox = [] } }
        ensures valid { IsState (B.state browser).budget (B.state browser) }
    {
        let _known = browser.quiet();
        Group {
            browser,
            inbox: Inbox::new(alloc),
        }
    }

    /// An equal group, and neither changes with the other.
    pub(crate) fn fork<C: Ledger>(&self, copies: &mut Steps<C>) -> Result<Group<B>, NoMemory>
        ensures equal { IfOk result (λ group. group ≡ self.now) }
        ensures copies { copies.new ≡ copies.old }
    {
        let browser = self.browser.fork(copies)?;
        Ok(Group {
            browser,
            inbox: self.inbox.fork(copies)?,
        })
    }

    /// The browser.
    pub(crate) fn browser(&self) -> &B
        ensures { B.state result.now ≡ self.now.state }
    {
        &self.browser
    }

    /// Whether the browser isn't quiet, or an input waits.
    pub(crate) fn has_work(&self) -> bool
        ensures { result ≡ head_works self.now }
    {
        !self.browser.quiet() || !self.inbox.is_empty()
    }

    /// An input more waits, behind the others.
    pub(crate) fn offer(&mut self, input: Input) -> Result<(), NoMemory>
        ensures { OnOk result (self.new ≡ offer_head self.old (Some input)) }
    {
        self.inbox.push(input)
    }

    /// One step: a quiet browser takes the first input that waits, if there is one, and any other
    /// makes a turn, which `turns` counts. The outputs go behind those that are there.
    pub(crate) fn step<C: Ledger, L: Ledger>(
        &mut self,
        outs: &mut Vec<Out>,
        copies: &mut Steps<C>,
        turns: &mut Steps<L>,
    ) -> Result<(), NoMemory>
        requires { All IsWellSpelledInput self.old.inbox }
        ensures done { OnOk result (self.new ≡ step_head self.old) }
        ensures outputs { OnOk result (outs.new.items
            ≡ outs.old.items ++ (step_of self.old).outputs) }
        ensures count { OnOk result (turns.new ≡ turns.old + head_turns self.old) }
        ensures most { turns.new ≤ turns.old + head_turns self.old }
        ensures turns_later { turns.old ≤ turns.new }
        ensures later { copies.old ≤ copies.new }
        ensures copies { self.old.state.quiet ≡ false
            → copies.new ≤ copies.old + B.turning self.old.state }
    {
        if !self.browser.quiet() {
            return self.browser.turn(outs, copies, turns);
        }
        match self.inbox.take_first()? {
            Some(input) => self.browser.accept(&input, outs, copies),
            None => Ok(()),
        }
    }

    /// One step, and up to `more` further ones as long as there is work.
    pub(crate) fn steps<C: Ledger, L: Ledger>(
        &mut self,
        more: u32,
        outs: &mut Vec<Out>,
        copies: &mut Steps<C>,
        turns: &mut Steps<L>,
    ) -> Result<(), NoMemory>
        requires { All IsWellSpelledInput self.old.inbox }
        ensures done { OnOk result (IsStepped self.old outs.old.items turns.old self.new
            outs.new.items turns.new) }
        ensures most { OnErr result (MayCount self.old outs.old.items turns.old turns.new) }
        ensures turns_later { turns.old ≤ turns.new }
        ensures later { copies.old ≤ copies.new }
    {
        self.step(outs, copies, turns)?;
        for _step in 0..more {
            if !self.has_work() {
                return Ok(());
            }
            self.step(outs, copies, turns)?;
        }
        Ok(())
    }
}
