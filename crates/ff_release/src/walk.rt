//! The released run over a port.
ghost use Rattle.std.specs.Prelude.{◌≡◌, ◌<◌, ◌≤◌, All};
ghost use Rattle.ff_policy.specs.Assignment.{IsAssignment};
ghost use Rattle.ff_session.specs.Giving.{Gives};
ghost use Rattle.ff_session.specs.Claims.{Claims, IsAnswered};
ghost use Rattle.ff_session.specs.Works.{Exchanged};
ghost use Rattle.ff_route.specs.Offering.{IsRuleOf};
ghost use Rattle.ff_release.specs.Releasing.{IsReleased, release_duty};

use crate::releasing::{ReleasedCopies, Releasing};
use ff_contract::Steps;
use ff_io::Port;
use ff_policy::Policy;
use ff_pool::Reactor;
use ff_rules::{Release, Rules};
use ff_session::{InputReader, new_pool, status_of};
use ff_status::Status;
use ff_stream::stream;
use std::alloc::Global;
use std::marker::PhantomData;
use std::sync::ledger::Ledger;

/// Multi-executes the trace that the port gives, line by line, with copies of a browser `B`, where
/// these rules let a stated number of inputs pass to lower levels. A class makes up to `slice`
/// steps before the next one has its turn, from 1 on. `turns` counts the turns of each class once,
/// and `copies` the cells that are copied.
pub fn release<B: Reactor, P: Port, C: Ledger, L: Ledger>(
    alloc: Global,
    policy: &Policy,
    rules: Rules,
    slice: u32,
    port: &mut P,
    copies: &mut Steps<C>,
    turns: &mut Steps<L>,
) -> Status
    requires slice { 0 < slice }
    requires rules { All (IsRuleOf policy.now.order) rules }
    ensures exchanged { Exchanged (Gives policy.now.order) (release_duty policy.now rules)
        (P.told port.old) (P.told port.new) turns.old turns.new result }
    ensures released { IsAnswered result → Claims policy.now (P.told port.old) (P.told port.new)
        (λ is put. IsReleased policy.now rules is put) }
    ensures valid { IsAssignment policy.now }
    ensures later_copies { copies.old ≤ copies.new }
{
    let lattice = policy.lattice();
    let reader = InputReader { lattice };
    let pool = match new_pool::<B>(alloc, policy) {
        Ok(pool) => pool,
        Err(_) => return Status::NoMemory,
    };
    let release = Release::new(rules);
    let mut state = ReleasedCopies { pool, release };
    let end = stream(
        alloc,
        &reader,
        &Releasing {
            policy,
            slice,
            kind: PhantomData::<B>,
        },
        &mut state,
        port,
        copies,
        turns,
    );
    status_of(end, Status::Done)
}
