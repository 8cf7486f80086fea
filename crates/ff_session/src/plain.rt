ghost use Rattle.std.specs.Prelude.{◌≤◌, true};
ghost use Rattle.ff_value.specs.declared.input.Input.{Input};
ghost use Rattle.ff_session.specs.Giving.{Gives};
ghost use Rattle.ff_session.specs.Works.{Exchanged, plain_duty};

use crate::NoMemory;
use crate::ending::status_of;
use crate::handling::handle;
use crate::input_reader::InputReader;
use crate::printing::print_all;
use ff_contract::Steps;
use ff_io::Port;
use ff_policy::Policy;
use ff_pool::Reactor;
use ff_status::Status;
use ff_stream::{Taker, stream};
use ff_value::Input;
use std::alloc::Global;
use std::marker::PhantomData;
use std::sync::ledger::Ledger;

/// One browser takes all inputs.
#[derive(Drop)]
pub struct Plain<'a, B: Reactor> {
    /// It says which level each line is at.
    pub policy: &'a Policy,
    /// Which kind of browser.
    pub kind: PhantomData<B>,
}

impl<B: Reactor> Taker for Plain<'_, B> {
    ghost use Rattle.std.specs.Prelude.{true};
    ghost use Rattle.ff_trace.specs.Lines.{IsInputOf};
    ghost use Rattle.ff_session.specs.Plain.{plain_entry, plain_turns, IsPlainAt};

    type Item = Input;

    type State = B;

    ghost accepts = { λ taker input. IsInputOf taker.policy.now.order input };

    ghost entry = { λ taker start. plain_entry taker.policy.now };

    ghost turns_due = { λ taker start. plain_turns taker.policy.now };

    ghost is_at = { λ taker start browser. IsPlainAt taker.policy.now (B.state browser) };

    ghost copies_none = { λ taker. ⊥ };

    fn take<C: Ledger, L: Ledger>(
        &self,
        alloc: Global,
        state: &mut B,
        item: &Input,
        text: &mut Vec<u8>,
        copies: &mut Steps<C>,
        turns: &mut Steps<L>,
    ) -> Result<(), NoMemory> {
        let outs = handle(alloc, state, item, copies, turns)?;
        print_all(self.policy, outs.as_slice(), text)
    }
}

/// Runs one browser over the trace that the port gives, line by line: before the port is read
/// again, the whole text of the lines that were got is written. `turns` counts its turns, and
/// `copies` the cells that it copies.
#[tactic(auto, using(crate::proofs::Giving::is_given, crate::proofs::Turning::fresh_plain))]
pub fn walk_plain<B: Reactor, P: Port, C: Ledger, L: Ledger>(
    alloc: Global,
    policy: &Policy,
    port: &mut P,
    copies: &mut Steps<C>,
    turns: &mut Steps<L>,
) -> Status
    ensures exchanged { Exchanged (Gives policy.now.order) (plain_duty policy.now)
        (P.told port.old) (P.told port.new) turns.old turns.new result }
    ensures later_copies { copies.old ≤ copies.new }
{
    let lattice = policy.lattice();
    let reader = InputReader { lattice };
    let mut browser = B::new(alloc, policy.fuel());
    let end = stream(
        alloc,
        &reader,
        &Plain {
            policy,
            kind: PhantomData::<B>,
        },
        &mut browser,
        port,
        copies,
        turns,
    );
    status_of(end, Status::Done)
}
