//! The resumed run over a port.
ghost use Rattle.std.specs.Prelude.{◌≡◌, ◌<◌, ◌≤◌};
ghost use Rattle.ff_lattice.specs.Order.{size};
ghost use Rattle.ff_pool.specs.Restored.{IsResting};
ghost use Rattle.ff_resume.specs.Resumed.{resume_duty, stand_of};
ghost use Rattle.ff_save.specs.Saved.{saved_recs, saved_text};
ghost use Rattle.ff_session.specs.Closing.{IsClosed};
ghost use Rattle.ff_session.specs.Giving.{Gives};
ghost use Rattle.ff_session.specs.Works.{Exchanged};

use ff_contract::Steps;
use ff_io::Port;
use ff_policy::Policy;
use ff_pool::Pool;
use ff_restorable::Restorable;
use ff_save::write_saved;
use ff_session::{close, status_of, walk_copies};
use ff_status::Status;
use ff_stream::End;
use std::alloc::Global;
use std::sync::ledger::Ledger;

/// Multi-executes the trace that the port gives, line by line, from where the copies of a pool at
/// rest stand, whatever browsers `B` these are. Once the end of the trace was seen and no line is
/// bad, it puts the saved text of where the copies then stand. A class makes up to `slice` steps
/// before the next one has its turn, from 1 on. `turns` counts the turns of each class once, and
/// `copies` the cells that are copied.
pub fn resume<B: Restorable, P: Port, C: Ledger, L: Ledger>(
    alloc: Global,
    policy: &Policy,
    slice: u32,
    pool: Pool<B>,
    port: &mut P,
    copies: &mut Steps<C>,
    turns: &mut Steps<L>,
) -> Status
    requires slice { 0 < slice }
    requires rests { IsResting (size policy.now.order) policy.now.fuel pool }
    ensures exchanged { Exchanged (Gives policy.now.order) (resume_duty policy.now (stand_of pool))
        (P.told port.old) (P.told port.new) turns.old turns.new result }
    ensures later_copies { copies.old ≤ copies.new }
{
    let mut pool = pool;
    let end = walk_copies(alloc, policy, slice, &mut pool, port, copies, turns);
    match end {
        End::Done => finish(alloc, policy, &pool, port),
        ended => status_of(ended, Status::Done),
    }
}

/// Puts the saved text of the pool, once a good trace was read.
fn finish<B: Restorable, P: Port>(
    alloc: Global,
    policy: &Policy,
    pool: &Pool<B>,
    port: &mut P,
) -> Status
    requires rests { IsResting (size policy.now.order) policy.now.fuel pool.now }
    ensures closed { IsClosed End.Done Status.Done (saved_text policy.now (saved_recs pool.now))
        (P.log port.old) (P.log port.new) (P.write_faults port.old) (P.write_faults port.new)
        result }
    ensures rest { P.rest port.new ≡ P.rest port.old }
    ensures others { P.read_faults port.new ≡ P.read_faults port.old }
    ensures later { P.write_faults port.old ≤ P.write_faults port.new }
{
    let mut text = Vec::new(alloc);
    match write_saved(alloc, policy, pool, &mut text) {
        Ok(()) => close(End::Done, Status::Done, text.as_slice(), port),
        Err(_) => Status::NoMemory,
    }
}
