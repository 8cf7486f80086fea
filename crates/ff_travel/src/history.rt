//! A pool of browsers under commands.
ghost use Rattle.std.specs.Prelude.{◌≡◌, ◌≤◌, ◌+◌, false, true, length, IfOk, OnOk, OnErr};
ghost use Rattle.ff_contract.specs.Appending.{Appends};
ghost use Rattle.ff_travel.specs.Commands.{IsCommandOf, MakesNoTurn};
ghost use Rattle.ff_travel.specs.Force.{step_turns};
ghost use Rattle.ff_travel.specs.Shown.{text_at};
ghost use Rattle.ff_travel.specs.Travelled.{applied, new_travel};

use crate::command::Command;
use crate::parts::Parts;
use crate::steps::no_outputs;
use ff_contract::Steps;
use ff_policy::Policy;
use ff_pool::{NoMemory, Reactor};
use ff_session::new_pool;
use std::alloc::{AllocError, Global};
use std::marker::Model;
use std::sync::ledger::Ledger;

/// The copies of a browser `B` for a policy's levels, as they are and as they were before each
/// command in force.
///
/// Forks share the stores of browsers and the inputs that wait, and what was put lies beside them
/// once for each level: so a travel is as long as its commands and its outputs.
#[derive(Drop)]
pub struct Travel<'a, B: Reactor> {
    /// Set while a command is carried out, so it stays set where that finds no memory.
    spent: bool,
    parts: Parts<'a, B>,
}

impl<'a, B: Reactor> Model for Travel<'a, B> {
    ghost use Rattle.std.specs.Prelude.{◌≡◌, false};
    ghost use Rattle.ff_travel.specs.Beside.{ArePartsFor, history_of};
    ghost use Rattle.ff_travel.specs.Travelled.{Travelled, coded_travelled};

    ghost Value = { Travelled };

    ghost coded = { coded_travelled };

    ghost view = { λ t. record {
      policy = t.parts.policy.now;
      spent = t.spent;
      history = history_of t.parts.kept.items t.parts.puts.items t.parts.pool;
    } };

    ghost invariant = { λ t. t.spent ≡ false
        → ArePartsFor t.parts.policy.now t.parts.kept.items t.parts.puts.items t.parts.pool };
}

impl<'a, B: Reactor> Travel<'a, B> {
    /// A travel under a policy, to which nothing came yet.
    pub fn new(alloc: Global, policy: &'a Policy) -> Result<Travel<'a, B>, NoMemory>
        ensures { IfOk result (λ travel. travel ≡ new_travel policy.now) }
    {
        let pool = new_pool(alloc, policy)?;
        let puts = no_outputs(alloc, policy.lattice().size())?;
        Ok(Travel {
            spent: false,
            parts: Parts {
                alloc,
                policy,
                kept: Vec::new(alloc),
                puts,
                pool,
            },
        })
    }

    /// The policy.
    pub fn policy(&self) -> &Policy
        ensures { result.now ≡ self.now.policy }
    {
        self.parts.policy
    }

    /// How many commands are in force.
    #[tactic(auto, using(crate::proofs::Beside::length_kept))]
    pub fn kept(&self) -> u64
        ensures { result ≡ length self.now.history.before }
    {
        self.parts.kept.len() as u64
    }

    /// Whether a command found no memory.
    pub fn spent(&self) -> bool
        ensures { result ≡ self.now.spent }
    {
        self.spent
    }

    /// Carries out a command, and appends what it shows. `turns` counts the turns that a turn or a
    /// drain makes, those of a class once. After want of memory the travel is spent, and a front of
    /// what it shows was appended.
    #[tactic(auto, using(ff_contract::proofs::Sequence::front_none))]
    pub fn apply<C: Ledger, L: Ledger>(
        &mut self,
        command: &Command,
        out: &mut Vec<u8>,
        copies: &mut Steps<C>,
        turns: &mut Steps<L>,
    ) -> Result<(), NoMemory>
        requires { self.old.spent ≡ false → IsCommandOf self.old.policy.order command.now }
        ensures unspent { OnOk result (self.old.spent ≡ false) }
        ensures done { OnOk result (self.new ≡ applied self.old command.now) }
        ensures text { Appends result out.old.items out.new.items
            (text_at self.old.policy self.old.history.world command.now) }
        ensures spent { OnErr result (self.new.spent ≡ true) }
        ensures policy { self.new.policy ≡ self.old.policy }
        ensures count { OnOk result (turns.new
            ≡ turns.old + step_turns self.old.policy self.old.history.world command.now) }
        ensures most { turns.new ≤ turns.old + step_turns self.old.policy self.old.history.world
            command.now }
        ensures turns_later { turns.old ≤ turns.new }
        ensures later { copies.old ≤ copies.new }
        ensures uncopied { MakesNoTurn command.now → copies.new ≡ copies.old }
    {
        if self.spent {
            return Err(AllocError);
        }
        self.spent = true;
        let mut text = Vec::new(self.parts.alloc);
        self.parts.carry_out(command, &mut text, copies, turns)?;
        out.extend_from_slice(text.as_slice())?;
        self.spent = false;
        Ok(())
    }
}
