ghost use Rattle.std.specs.Prelude.{◌≡◌, ◌<◌, ◌≤◌, []};
ghost use Rattle.ff_io.specs.Counts.{Rose};
ghost use Rattle.ff_value.specs.declared.input.Input.{Input};
ghost use Rattle.ff_pool.specs.Pooled as pooled;
ghost use Rattle.ff_trace.specs.Lines.{IsInputOf};
ghost use Rattle.ff_stream.specs.Owed.{Streams};
ghost use Rattle.ff_session.specs.Giving.{Gives};
ghost use Rattle.ff_session.specs.Works.{Exchanged, multi_duty};
ghost use Rattle.ff_session.specs.Claims.{Claims, IsAnswered};
ghost use Rattle.ff_session.specs.Levels.{levels, machine};
ghost use Rattle.ff_confinement.specs.Laws.{IsProjection, IsSecure, IsPrecise};
ghost use Rattle.ff_machine.specs.State.{State};
ghost use Rattle.ff_confinement.specs.Standings.{Standing};
ghost use Rattle.ff_session.specs.Multi.{AreCopiesAt, seen_by, copies_entry, copies_turns};

use crate::NoMemory;
use crate::ending::status_of;
use crate::input_reader::InputReader;
use crate::offered::{new_pool, take_offers};
use ff_contract::Steps;
use ff_io::Port;
use ff_policy::Policy;
use ff_pool::{Pool, Reactor};
use ff_route::offers;
use ff_status::{Status, TraceFault};
use ff_stream::{End, Taker, stream};
use ff_value::Input;
use std::alloc::Global;
use std::marker::PhantomData;
use std::sync::ledger::Ledger;

/// How many steps a class of copies makes at a time, where nothing else is asked for.
pub const USUAL_SLICE: u32 = 1_000;

/// A copy of the browser for each level takes what the level sees of the inputs, from wherever the
/// copies stand; levels that are one copy make their turns once.
#[derive(Drop)]
pub struct Copies<'a, B: Reactor> {
    /// It says what each level sees, and which level each line is at.
    pub policy: &'a Policy,
    /// How many steps a class makes before the next one has its turn, from 1 on.
    pub slice: u32,
    /// Which kind of browser.
    pub kind: PhantomData<B>,
}

impl<B: Reactor> Taker for Copies<'_, B> {
    ghost use Rattle.std.specs.Prelude.{◌<◌};
    ghost use Rattle.ff_trace.specs.Lines.{IsInputOf};
    ghost use Rattle.ff_machine.specs.State.{State as BrowserState};
    ghost use Rattle.ff_confinement.specs.Standings.{Standing};
    ghost use Rattle.ff_session.specs.Multi.{seen_by, copies_entry, copies_turns, AreCopiesAt};

    type Item = Input;

    type State = Pool<B>;

    ghost Start = { Standing BrowserState };

    ghost accepts = { λ taker input. IsInputOf taker.policy.now.order input };

    ghost entry = { λ taker from. copies_entry taker.policy.now (seen_by taker.policy.now) from };

    ghost turns_due = { λ taker from. copies_turns taker.policy.now (seen_by taker.policy.now)
        from };

    ghost is_at = { λ taker from pool inputs. AreCopiesAt taker.policy.now
        (seen_by taker.policy.now) from pool inputs × (0 < taker.slice) };

    ghost copies_none = { λ taker. ⊥ };

    fn take<C: Ledger, L: Ledger>(
        &self,
        alloc: Global,
        state: &mut Pool<B>,
        item: &Input,
        text: &mut Vec<u8>,
        copies: &mut Steps<C>,
        turns: &mut Steps<L>,
    ) -> Result<(), NoMemory> {
        let seen = offers(alloc, self.policy, item)?;
        take_offers(self.policy, self.slice, state, &seen, text, copies, turns)
    }
}

/// Multi-executes the trace that the port gives from where the copies of a pool at rest stand. A
/// class makes up to `slice` steps before the next one has its turn. After want of memory nothing
/// is known of the pool.
#[tactic(auto, using(crate::proofs::Giving::is_given))]
pub fn walk_copies<B: Reactor, P: Port, C: Ledger, L: Ledger>(
    alloc: Global,
    policy: &Policy,
    slice: u32,
    pool: &mut Pool<B>,
    port: &mut P,
    copies: &mut Steps<C>,
    turns: &mut Steps<L>,
) -> End<TraceFault>
    requires slice { 0 < slice }
    requires at { (from : Standing State) × AreCopiesAt policy.now (seen_by policy.now) from
        pool.old [] }
    ensures streams { (from : Standing State)
        → AreCopiesAt policy.now (seen_by policy.now) from pool.old []
        → Streams (Gives policy.now.order) (copies_entry policy.now (seen_by policy.now) from)
        (copies_turns policy.now (seen_by policy.now) from)
        (λ is. AreCopiesAt policy.now (seen_by policy.now) from pool.new is × (0 < slice))
        (P.log port.old) (P.log port.new) (P.rest port.old) (P.rest port.new) turns.old turns.new
        result }
    ensures later { turns.old ≤ turns.new }
    ensures later_copies { copies.old ≤ copies.new }
    ensures later_writes { P.write_faults port.old ≤ P.write_faults port.new }
    ensures read_fault { result ≡ End.ReadFault
        → Rose (P.read_faults port.old) (P.read_faults port.new) }
    ensures write_fault { result ≡ End.WriteFault
        → Rose (P.write_faults port.old) (P.write_faults port.new) }
{
    let lattice = policy.lattice();
    let reader = InputReader { lattice };
    stream(
        alloc,
        &reader,
        &Copies {
            policy,
            slice,
            kind: PhantomData::<B>,
        },
        pool,
        port,
        copies,
        turns,
    )
}

/// Multi-executes the trace that the port gives, line by line, with copies of a browser `B`: before
/// the port is read again, the whole text of the lines that were got is written. A class makes up
/// to `slice` steps before the next one has its turn, from 1 on. `turns` counts the turns of each
/// class once, and `copies` the cells that are copied.
pub fn walk_multi<B: Reactor, P: Port, C: Ledger, L: Ledger>(
    alloc: Global,
    policy: &Policy,
    slice: u32,
    port: &mut P,
    copies: &mut Steps<C>,
    turns: &mut Steps<L>,
) -> Status
    requires { 0 < slice }
    ensures exchanged { Exchanged (Gives policy.now.order) (multi_duty policy.now)
        (P.told port.old) (P.told port.new) turns.old turns.new result }
    ensures projected { IsAnswered result → Claims policy.now (P.told port.old) (P.told port.new)
        (λ is put. IsProjection (machine policy.now) (levels policy.now) is put) }
    ensures secure { IsAnswered result → Claims policy.now (P.told port.old) (P.told port.new)
        (λ is put. IsSecure (machine policy.now) (levels policy.now) (IsInputOf policy.now.order) is
        put) }
    ensures precise { IsAnswered result → Claims policy.now (P.told port.old) (P.told port.new)
        (λ is put. IsPrecise (machine policy.now) (levels policy.now) is put) }
    ensures later_copies { copies.old ≤ copies.new }
{
    let _known = policy.lattice();
    match new_pool::<B>(alloc, policy) {
        Ok(mut pool) => status_of(
            walk_copies(alloc, policy, slice, &mut pool, port, copies, turns),
            Status::Done,
        ),
        Err(_) => Status::NoMemory,
    }
}
