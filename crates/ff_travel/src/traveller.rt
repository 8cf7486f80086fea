ghost use Rattle.std.specs.Prelude.{◌≤◌};
ghost use Rattle.ff_session.specs.Works.{Exchanged};
ghost use Rattle.ff_travel.specs.Giving.{Gives};
ghost use Rattle.ff_travel.specs.Owed.{travel_duty};

use crate::NoMemory;
use crate::command::Command;
use crate::command_reader::CommandReader;
use crate::history::Travel;
use ff_contract::Steps;
use ff_io::Port;
use ff_policy::Policy;
use ff_pool::Reactor;
use ff_session::status_of;
use ff_status::Status;
use ff_stream::{Taker, stream};
use std::alloc::Global;
use std::marker::PhantomData;
use std::sync::ledger::Ledger;

/// Carries out commands one after another.
#[derive(Drop)]
pub(crate) struct Traveller<'a, B: Reactor> {
    /// It says what each level sees, and which level each line is at.
    policy: &'a Policy,
    /// Which kind of browser.
    kind: PhantomData<B>,
}

impl<'a, B: Reactor> Taker for Traveller<'a, B> {
    ghost use Rattle.ff_travel.specs.Commands.{IsCommandOf};
    ghost use Rattle.ff_travel.specs.Shown.{travel_entry, travel_turns};
    ghost use Rattle.ff_travel.specs.Travelled.{IsTravelAt};

    type Item = Command;

    type State = Travel<'a, B>;

    ghost accepts = { λ taker command. IsCommandOf taker.policy.now.order command };

    ghost entry = { λ taker start. travel_entry taker.policy.now };

    ghost turns_due = { λ taker start. travel_turns taker.policy.now };

    ghost is_at = { λ taker start. IsTravelAt taker.policy.now };

    ghost copies_none = { λ taker. ⊥ };

    fn take<C: Ledger, L: Ledger>(
        &self,
        _alloc: Global,
        state: &mut Travel<'a, B>,
        item: &Command,
        text: &mut Vec<u8>,
        copies: &mut Steps<C>,
        turns: &mut Steps<L>,
    ) -> Result<(), NoMemory> {
        state.apply(item, text, copies, turns)
    }
}

/// Carries out the commands of the trace that the port gives on a pool of browsers `B`, line by
/// line: before the port is read again, all that the lines that were got show is written. `turns`
/// counts the turns that turns and drains make, also of those that are taken back later, and
/// `copies` the cells that are copied.
#[tactic(auto, using(crate::proofs::Giving::is_given, crate::proofs::Force::fresh_travel))]
pub fn travel<B: Reactor, P: Port, C: Ledger, L: Ledger>(
    alloc: Global,
    policy: &Policy,
    port: &mut P,
    copies: &mut Steps<C>,
    turns: &mut Steps<L>,
) -> Status
    ensures exchanged { Exchanged (Gives policy.now.order) (travel_duty policy.now)
        (P.told port.old) (P.told port.new) turns.old turns.new result }
    ensures later_copies { copies.old ≤ copies.new }
{
    let lattice = policy.lattice();
    let reader = CommandReader { lattice };
    let mut travel = match Travel::<B>::new(alloc, policy) {
        Ok(travel) => travel,
        Err(_) => return Status::NoMemory,
    };
    let end = stream(
        alloc,
        &reader,
        &Traveller {
            policy,
            kind: PhantomData::<B>,
        },
        &mut travel,
        port,
        copies,
        turns,
    );
    status_of(end, Status::Done)
}
