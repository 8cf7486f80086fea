//! The audit of a trace.
ghost use Rattle.std.specs.Prelude.{◌≡◌, ◌≤◌, List, cond};
ghost use Rattle.ff_value.specs.declared.input.Input.{Input};
ghost use Rattle.ff_session.specs.Giving.{Gives};
ghost use Rattle.ff_session.specs.Works.{Exchanged};
ghost use Rattle.ff_session.specs.Closing.{IsEnded};
ghost use Rattle.ff_audit.specs.Audited.{IsAuditAt, IsReported, account, audit_duty};

use crate::NoMemory;
use crate::comparisons::Comparisons;
use ff_contract::Steps;
use ff_io::Port;
use ff_policy::Policy;
use ff_session::{InputReader, Reactor, close};
use ff_status::{Status, TraceFault};
use ff_stream::{End, Taker, stream};
use ff_value::Input;
use std::alloc::Global;
use std::marker::PhantomData;
use std::sync::ledger::Ledger;

/// Each input is taken by both programs.
#[derive(Drop)]
pub(crate) struct Both<'a, B: Reactor> {
    policy: &'a Policy,
    /// Which kind of browser.
    kind: PhantomData<B>,
}

impl<B: Reactor> Taker for Both<'_, B> {
    ghost use Rattle.ff_trace.specs.Lines.{IsInputOf};
    ghost use Rattle.ff_audit.specs.Audited.{IsAuditAt, account, feed_turns, no_entry};

    type Item = Input;

    type State = Comparisons<B>;

    ghost accepts = { λ taker input. IsInputOf taker.policy.now.order input };

    ghost entry = { λ taker start. no_entry };

    ghost turns_due = { λ taker start. feed_turns taker.policy.now };

    ghost is_at = { λ taker start comparisons. IsAuditAt taker.policy.now
        (account B.state comparisons) };

    ghost copies_none = { λ taker. ⊥ };

    #[tactic(auto, using(crate::proofs::Auditing::no_text))]
    fn take<C: Ledger, L: Ledger>(
        &self,
        alloc: Global,
        state: &mut Comparisons<B>,
        item: &Input,
        _text: &mut Vec<u8>,
        copies: &mut Steps<C>,
        turns: &mut Steps<L>,
    ) -> Result<(), NoMemory> {
        state.feed(alloc, self.policy, item, copies, turns)
    }
}

/// Audits the trace that the port gives, with browsers `B`: `Leaks` where at some level the plain
/// program puts other lines than the multi-executed one, and else `Done`. The report is put once
/// reading has ended, also after a bad line and after a read that failed, and nothing before it.
/// `turns` counts the turns of both programs, and `copies` the cells that they copy.
pub fn audit<B: Reactor, P: Port, C: Ledger, L: Ledger>(
    alloc: Global,
    policy: &Policy,
    port: &mut P,
    copies: &mut Steps<C>,
    turns: &mut Steps<L>,
) -> Status
    ensures exchanged { Exchanged (Gives policy.now.order) (audit_duty policy.now) (P.told port.old)
        (P.told port.new) turns.old turns.new result }
    ensures later_copies { copies.old ≤ copies.new }
{
    let lattice = policy.lattice();
    let reader = InputReader { lattice };
    let mut comparisons = match Comparisons::<B>::new(alloc, policy) {
        Ok(comparisons) => comparisons,
        Err(_) => return Status::NoMemory,
    };
    let end = stream(
        alloc,
        &reader,
        &Both {
            policy,
            kind: PhantomData::<B>,
        },
        &mut comparisons,
        port,
        copies,
        turns,
    );
    match end {
        End::WriteFault => Status::WriteFault,
        End::NoMemory => Status::NoMemory,
        ended => finish(alloc, policy, &comparisons, ended, port),
    }
}

/// Puts the report, once reading has ended.
fn finish<B: Reactor, P: Port>(
    alloc: Global,
    policy: &Policy,
    comparisons: &Comparisons<B>,
    end: End<TraceFault>,
    port: &mut P,
) -> Status
    requires ended { IsEnded end }
    requires at { (is : List Input) × IsAuditAt policy.now (account B.state comparisons.now) is }
    ensures reported { IsReported policy.now (account B.state comparisons.now) end (P.log port.old)
        (P.log port.new) (P.write_faults port.old) (P.write_faults port.new) result }
    ensures rest { P.rest port.new ≡ P.rest port.old }
    ensures others { P.read_faults port.new ≡ P.read_faults port.old }
    ensures later { P.write_faults port.old ≤ P.write_faults port.new }
{
    let good = good_status(comparisons.leak());
    let mut text = Vec::new(alloc);
    match comparisons.report(policy.lattice(), &mut text) {
        Ok(()) => close(end, good, text.as_slice(), port),
        Err(_) => Status::NoMemory,
    }
}

/// How an audit ends whose trace is good.
fn good_status(leak: bool) -> Status
    ensures { result ≡ cond leak Status.Leaks Status.Done }
{
    if leak { Status::Leaks } else { Status::Done }
}
