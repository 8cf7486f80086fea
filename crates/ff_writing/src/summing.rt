//! Inputs that are drawn from a start, multi-executed.
ghost use Rattle.std.specs.Prelude.{◌≡◌, ◌≤◌, ◌<◌, IfOk};
ghost use Rattle.ff_gen.specs.Workload.{following};
ghost use Rattle.ff_trace.specs.Lines.{IsInputOf};
ghost use Rattle.ff_writing.specs.Generated.{IsDrawn, RanDrawn, AtMostDrawn, Generates, summary};

use crate::NoMemory;
use crate::tally::print_summary;
use crate::whole::write;
use ff_contract::Steps;
use ff_gen::Draws;
use ff_io::Port;
use ff_lattice::Lattice;
use ff_policy::Policy;
use ff_session::{Copies, InputReader, Reactor, new_pool};
use ff_status::Status;
use ff_stream::{Reader, Taker};
use ff_trace::Room;
use ff_value::Input;
use std::alloc::{AllocError, Global};
use std::marker::PhantomData;
use std::sync::ledger::Ledger;

/// Draws so many inputs from a start and multi-executes them with copies of a browser `B`, whatever
/// their kinds. It writes how
/// many they are, and for each level how many lines it has, and how many bytes. The port is never
/// read.
pub fn generate<B: Reactor, P: Port, C: Ledger, L: Ledger>(
    alloc: Global,
    policy: &Policy,
    slice: u32,
    start: u64,
    inputs: u32,
    port: &mut P,
    copies: &mut Steps<C>,
    turns: &mut Steps<L>,
) -> Status
    requires { 0 < slice }
    ensures generates { Generates policy.now start inputs (P.told port.old) (P.told port.new)
        turns.old turns.new result }
    ensures later_copies { copies.old ≤ copies.new }
{
    write(
        summed::<B, C, L>(alloc, policy, slice, start, inputs, copies, turns),
        port,
    )
}

/// The summary of a run over drawn inputs.
fn summed<B: Reactor, C: Ledger, L: Ledger>(
    alloc: Global,
    policy: &Policy,
    slice: u32,
    start: u64,
    inputs: u32,
    copies: &mut Steps<C>,
    turns: &mut Steps<L>,
) -> Result<Vec<u8>, NoMemory>
    requires { 0 < slice }
    ensures ran { IfOk result (λ sum. RanDrawn policy.now start inputs turns.old turns.new
        (λ text. sum.items ≡ summary policy.now.order inputs text)) }
    ensures most { AtMostDrawn policy.now start inputs turns.old turns.new }
    ensures later_copies { copies.old ≤ copies.new }
{
    let text = ran::<B, C, L>(alloc, policy, slice, start, inputs, copies, turns)?;
    let mut sum = Vec::new(alloc);
    print_summary(policy.lattice(), inputs, text.as_slice(), &mut sum)?;
    Ok(sum)
}

/// The text of a run over drawn inputs.
fn ran<B: Reactor, C: Ledger, L: Ledger>(
    alloc: Global,
    policy: &Policy,
    slice: u32,
    start: u64,
    inputs: u32,
    copies: &mut Steps<C>,
    turns: &mut Steps<L>,
) -> Result<Vec<u8>, NoMemory>
    requires { 0 < slice }
    ensures ran { IfOk result (λ bytes. RanDrawn policy.now start inputs turns.old turns.new
        (λ text. bytes.items ≡ text)) }
    ensures most { AtMostDrawn policy.now start inputs turns.old turns.new }
    ensures later_copies { copies.old ≤ copies.new }
{
    let taker = Copies {
        policy,
        slice,
        kind: PhantomData::<B>,
    };
    let mut draws = Draws::new(start);
    let mut text = Vec::new(alloc);
    let mut pool = new_pool(alloc, policy)?;
    let mut room = Room::new(alloc);
    for _drawn in 0..inputs {
        let input = next_input(alloc, policy.lattice(), &mut room, &mut draws)?;
        taker.take(alloc, &mut pool, &input, &mut text, copies, turns)?;
    }
    Ok(text)
}

/// The next input that is drawn. It is refused for want of memory.
#[tactic(auto, using(ff_session::proofs::Giving::is_given))]
fn next_input(
    alloc: Global,
    lattice: &Lattice,
    room: &mut Room,
    draws: &mut Draws,
) -> Result<Input, NoMemory>
    ensures following { draws.new ≡ following draws.old }
    ensures drawn { IfOk result (IsDrawn lattice.now draws.new) }
    ensures input { IfOk result (IsInputOf lattice.now) }
{
    let mut line = Vec::new(alloc);
    draws.next_line(&mut line)?;
    let Some(_newline) = line.pop() else {
        return Err(AllocError);
    };
    let reader = InputReader { lattice };
    match reader.read(alloc, room, line.as_slice())? {
        Ok(Some(input)) => Ok(input),
        _ => Err(AllocError),
    }
}
