//! What a travel holds, whether that is a travel or not.
//!
//! A command changes it part by part, so what holds of the parts is the invariant of
//! [`Travel`](crate::Travel), owed once, at the return.
ghost use Rattle.std.specs.Prelude.{◌≡◌, ◌≤◌, ◌+◌, ◌++◌, OnOk};
ghost use Rattle.ff_travel.specs.Beside.{ArePartsFor, history_of, under};
ghost use Rattle.ff_travel.specs.Commands.{IsCommandOf, MakesNoTurn};
ghost use Rattle.ff_travel.specs.Force.{step_turns};
ghost use Rattle.ff_travel.specs.Shown.{text_at};
ghost use Rattle.ff_travel.specs.Travelled.{happened};

use crate::command::Command;
use crate::kept::Kept;
use crate::outputs::Outputs;
use crate::showing::show;
use crate::steps::{arrive, gather, go_back, keep};
use ff_contract::Steps;
use ff_policy::Policy;
use ff_pool::{NoMemory, Pool, Reactor};
use ff_session::USUAL_SLICE;
use std::alloc::Global;
use std::sync::ledger::Ledger;

/// The copies, and what is kept beside them.
#[derive(Drop)]
pub(crate) struct Parts<'a, B: Reactor> {
    pub(crate) alloc: Global,
    pub(crate) policy: &'a Policy,
    /// What is kept from before each command in force, that of the first one first.
    pub(crate) kept: Vec<Kept<B>>,
    /// What each level's copy has put since the beginning.
    pub(crate) puts: Vec<Outputs>,
    /// The copies, of which all outputs were taken.
    pub(crate) pool: Pool<B>,
}

impl<'a, B: Reactor> Parts<'a, B> {
    /// Carries out a command on the pool. Before an arrival, a turn and a drain, a fork of the pool
    /// is kept, and after it what was put is laid beside.
    pub(crate) fn carry_out<C: Ledger, L: Ledger>(
        &mut self,
        command: &Command,
        out: &mut Vec<u8>,
        copies: &mut Steps<C>,
        turns: &mut Steps<L>,
    ) -> Result<(), NoMemory>
        requires parts { ArePartsFor self.old.policy.now self.old.kept.items self.old.puts.items
            self.old.pool }
        requires command { IsCommandOf self.old.policy.now.order command.now }
        ensures parts { OnOk result (ArePartsFor self.old.policy.now self.new.kept.items
            self.new.puts.items self.new.pool) }
        ensures done { OnOk result (history_of self.new.kept.items self.new.puts.items self.new.pool
            ≡ happened self.old.policy.now
            (history_of self.old.kept.items self.old.puts.items self.old.pool) command.now) }
        ensures policy { self.new.policy.now ≡ self.old.policy.now }
        ensures text { OnOk result (out.new.items ≡ out.old.items
            ++ text_at self.old.policy.now (under self.old.puts.items self.old.pool) command.now) }
        ensures count { OnOk result (turns.new ≡ turns.old + step_turns self.old.policy.now
            (under self.old.puts.items self.old.pool) command.now) }
        ensures most { turns.new ≤ turns.old + step_turns self.old.policy.now
            (under self.old.puts.items self.old.pool) command.now }
        ensures turns_later { turns.old ≤ turns.new }
        ensures later { copies.old ≤ copies.new }
        ensures uncopied { MakesNoTurn command.now → copies.new ≡ copies.old }
    {
        match command {
            Command::Arrive(input) => {
                keep(
                    self.alloc,
                    &mut self.kept,
                    self.puts.as_slice(),
                    &self.pool,
                    copies,
                )?;
                arrive(self.alloc, self.policy, input, &mut self.pool, copies)?;
                gather(&mut self.pool, &mut self.puts)
            }
            Command::Turn(level) => {
                keep(
                    self.alloc,
                    &mut self.kept,
                    self.puts.as_slice(),
                    &self.pool,
                    copies,
                )?;
                self.pool.turn(*level, copies, turns)?;
                gather(&mut self.pool, &mut self.puts)
            }
            Command::Drain => {
                keep(
                    self.alloc,
                    &mut self.kept,
                    self.puts.as_slice(),
                    &self.pool,
                    copies,
                )?;
                self.pool.drain(USUAL_SLICE, copies, turns)?;
                gather(&mut self.pool, &mut self.puts)
            }
            Command::Back => {
                go_back(&mut self.kept, &mut self.puts, &mut self.pool);
                Ok(())
            }
            Command::Show(level) => {
                show(self.policy, &self.pool, self.puts.as_slice(), *level, out)
            }
        }
    }
}
