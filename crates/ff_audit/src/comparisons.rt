//! What an audit keeps: both programs, and a comparison for each level.
ghost use Rattle.std.specs.Prelude.{◌≡◌, ◌≤◌, ◌+◌, ◌<◌, ◌∷◌, ◌++◌, [], ℕ, List, IfOk, OnOk, length};
ghost use Rattle.ff_value.specs.declared.input.Input.{Input};
ghost use Rattle.ff_lattice.specs.Order.{size};
ghost use Rattle.ff_trace.specs.Lines.{IsInputOf};
ghost use Rattle.ff_audit.specs.Comparing.{compared, CompareAll};
ghost use Rattle.ff_audit.specs.Verdicts.{any_differ, report_of};
ghost use Rattle.ff_audit.specs.Audited.{IsAuditAt, account, feed_turns};

use crate::comparison::Comparison;
use crate::hearing::hear_texts;
use crate::levels::{any_leak, fresh_levels, report_levels, verdict_at};
use crate::verdict::Verdict;
use ff_contract::Steps;
use ff_lattice::Lattice;
use ff_name::{Level, NoMemory};
use ff_policy::Policy;
use ff_session::{Copies, Plain, Pool, Reactor, USUAL_SLICE, new_pool};
use ff_stream::Taker;
use ff_value::Input;
use std::alloc::Global;
use std::marker::PhantomData;
use std::sync::ledger::Ledger;

/// Both programs, and for each level a comparison of their lines.
#[derive(Drop)]
pub(crate) struct Comparisons<B: Reactor> {
    browser: B,
    pool: Pool<B>,
    levels: Vec<Comparison>,
}

impl<B: Reactor> Comparisons<B> {
    /// Nothing was fed. It is refused only for want of memory.
    pub(crate) fn new(alloc: Global, policy: &Policy) -> Result<Comparisons<B>, NoMemory>
        ensures { IfOk result (λ comparisons. IsAuditAt policy.now (account B.state comparisons)
            []) }
    {
        let pool = new_pool(alloc, policy)?;
        let browser = B::new(alloc, policy.fuel());
        let levels = fresh_levels(alloc, policy.lattice())?;
        Ok(Comparisons {
            browser,
            pool,
            levels,
        })
    }

    /// Both programs take an input, and their lines are compared.
    pub(crate) fn feed<C: Ledger, L: Ledger>(
        &mut self,
        alloc: Global,
        policy: &Policy,
        input: &Input,
        copies: &mut Steps<C>,
        turns: &mut Steps<L>,
    ) -> Result<(), NoMemory>
        requires input { IsInputOf policy.now.order input.now }
        requires at { (is : List Input) × IsAuditAt policy.now (account B.state self.old) is }
        ensures fed { OnOk result ((is : List Input)
            → IsAuditAt policy.now (account B.state self.old) is
            → IsAuditAt policy.now (account B.state self.new) (is ++ input.now ∷ [])) }
        ensures count { OnOk result ((is : List Input)
            → IsAuditAt policy.now (account B.state self.old) is
            → turns.new ≡ turns.old + feed_turns policy.now is input.now) }
        ensures later { turns.old ≤ turns.new }
        ensures most { (is : List Input) → IsAuditAt policy.now (account B.state self.old) is
            → turns.new ≤ turns.old + feed_turns policy.now is input.now }
        ensures later_copies { copies.old ≤ copies.new }
    {
        let lattice = policy.lattice();
        let plain = Plain {
            policy,
            kind: PhantomData::<B>,
        };
        let mut text = Vec::new(alloc);
        plain.take(alloc, &mut self.browser, input, &mut text, copies, turns)?;
        let multi = Copies {
            policy,
            slice: USUAL_SLICE,
            kind: PhantomData::<B>,
        };
        let mut other = Vec::new(alloc);
        multi.take(alloc, &mut self.pool, input, &mut other, copies, turns)?;
        hear_texts(
            alloc,
            lattice,
            text.as_slice(),
            other.as_slice(),
            &mut self.levels,
        )
    }

    /// What is found at a level.
    pub(crate) fn verdict(&self, level: Level) -> Result<Verdict, NoMemory>
        requires { level.0 < length self.now.levels.items }
        ensures { IfOk result (λ verdict. (ps ms : ℕ → List (List ℕ))
            → CompareAll self.now.levels.items ps ms
            → verdict ≡ compared 0 (ps level.0) (ms level.0)) }
    {
        verdict_at(self.levels.as_slice(), level)
    }

    /// Whether the lines of some level differ.
    pub(crate) fn leak(&self) -> bool
        ensures { (ps ms : ℕ → List (List ℕ)) → CompareAll self.now.levels.items ps ms
            → result ≡ any_differ (length self.now.levels.items) ps ms }
    {
        any_leak(self.levels.as_slice())
    }

    /// Appends what is found at each level in order.
    pub(crate) fn report(&self, lattice: &Lattice, out: &mut Vec<u8>) -> Result<(), NoMemory>
        requires { length self.now.levels.items ≡ size lattice.now }
        ensures { OnOk result ((ps ms : ℕ → List (List ℕ)) → CompareAll self.now.levels.items ps ms
            → out.new.items ≡ out.old.items ++ report_of lattice.now (size lattice.now) ps ms) }
    {
        report_levels(lattice, self.levels.as_slice(), out)
    }
}
