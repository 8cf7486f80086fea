//! An audit, one input after another.
ghost use Rattle.std.specs.Prelude.{◌≡◌, ◌≤◌, ◌+◌, ◌<◌, ◌∷◌, ◌++◌, [], false, true, List, IfOk, OnOk, OnErr};
ghost use Rattle.ff_contract.specs.Appending.{Appends};
ghost use Rattle.ff_value.specs.declared.input.Input.{Input};
ghost use Rattle.ff_lattice.specs.Order.{size};
ghost use Rattle.ff_trace.specs.Lines.{IsInputOf};
ghost use Rattle.ff_audit.specs.Audited.{feed_turns, leaks, report, verdict};
ghost use Rattle.ff_audit.specs.Fed.{IsFed};

use crate::comparisons::Comparisons;
use crate::verdict::Verdict;
use ff_contract::Steps;
use ff_name::{Level, NoMemory};
use ff_policy::Policy;
use ff_session::Reactor;
use ff_value::Input;
use std::alloc::{AllocError, Global};
use std::marker::Model;
use std::sync::ledger::Ledger;

/// The plain program and the multi-executed one under a policy, both of browsers `B`, and the lines
/// that they put at each level. Of lines that are the same in both it keeps the number alone; where
/// a level's lines differ, no more than what is kept by then.
#[derive(Drop)]
pub struct Auditor<B: Reactor> {
    alloc: Global,
    policy: Policy,
    comparisons: Comparisons<B>,
    /// Set while an input is taken, so it stays set where there is no memory.
    spent: bool,
}

impl<B: Reactor> Model for Auditor<B> {
    ghost use Rattle.std.specs.Prelude.{◌≡◌, false, List};
    ghost use Rattle.ff_value.specs.declared.input.Input.{Input};
    ghost use Rattle.ff_audit.specs.Audited.{IsAuditAt, account};
    ghost use Rattle.ff_audit.specs.Fed.{Audited, coded_audited};

    ghost Value = { Audited };

    ghost coded = { coded_audited };

    ghost view = { λ a. record {
      policy = a.policy;
      spent = a.spent;
      account = account B.state
          a.comparisons;
    } };

    ghost invariant = { λ a. a.spent ≡ false → (is : List Input)
        × IsAuditAt a.policy (account B.state a.comparisons) is };
}

impl<B: Reactor> Auditor<B> {
    /// An audit in which no input was taken. It is refused only for want of memory.
    pub fn new(alloc: Global, policy: Policy) -> Result<Auditor<B>, NoMemory>
        ensures fed { IfOk result (λ auditor. IsFed auditor []) }
        ensures policy { IfOk result (λ auditor. auditor.policy ≡ policy) }
        ensures unspent { IfOk result (λ auditor. auditor.spent ≡ false) }
    {
        let comparisons = Comparisons::new(alloc, &policy)?;
        Ok(Auditor {
            alloc,
            policy,
            comparisons,
            spent: false,
        })
    }

    /// The policy.
    pub fn policy(&self) -> &Policy
        ensures { result.now ≡ self.now.policy }
    {
        &self.policy
    }

    /// Whether an input found no memory.
    pub fn spent(&self) -> bool
        ensures { result ≡ self.now.spent }
    {
        self.spent
    }

    /// Both programs take an input.
    ///
    /// # Errors
    ///
    /// Want of memory. Then the audit is spent, and answers nothing else from then on.
    pub fn feed<C: Ledger, L: Ledger>(
        &mut self,
        input: &Input,
        copies: &mut Steps<C>,
        turns: &mut Steps<L>,
    ) -> Result<(), NoMemory>
        requires input { IsInputOf self.old.policy.order input.now }
        ensures fed { OnOk result ((is : List Input) → IsFed self.old is
            → IsFed self.new (is ++ input.now ∷ [])) }
        ensures unspent { OnOk result ((self.old.spent ≡ false) × (self.new.spent ≡ false)) }
        ensures spent { OnErr result (self.new.spent ≡ true) }
        ensures policy { self.new.policy ≡ self.old.policy }
        ensures count { OnOk result ((is : List Input) → IsFed self.old is
            → turns.new ≡ turns.old + feed_turns self.old.policy is input.now) }
        ensures later { turns.old ≤ turns.new }
        ensures most { (is : List Input) → IsFed self.old is
            → turns.new ≤ turns.old + feed_turns self.old.policy is input.now }
        ensures later_copies { copies.old ≤ copies.new }
    {
        if self.spent {
            return Err(AllocError);
        }
        self.spent = true;
        self.comparisons
            .feed(self.alloc, &self.policy, input, copies, turns)?;
        self.spent = false;
        Ok(())
    }

    /// What is found at a level, by an audit that isn't spent.
    pub fn verdict(&self, level: Level) -> Result<Verdict, NoMemory>
        requires level { level.0 < size self.now.policy.order }
        requires unspent { self.now.spent ≡ false }
        ensures { IfOk result (λ answer. (is : List Input) → IsFed self.now is
            → answer ≡ verdict self.now.policy is level.0) }
    {
        self.comparisons.verdict(level)
    }

    /// Whether the lines of some level differ, by an audit that isn't spent.
    pub fn leaks(&self) -> bool
        requires { self.now.spent ≡ false }
        ensures { (is : List Input) → IsFed self.now is → result ≡ leaks self.now.policy is }
    {
        self.comparisons.leak()
    }

    /// Appends what is found at each level in order, by an audit that isn't spent. After want of
    /// memory a front of it was appended.
    #[tactic(auto, using(ff_contract::proofs::Sequence::front_none))]
    pub fn report(&self, out: &mut Vec<u8>) -> Result<(), NoMemory>
        requires { self.now.spent ≡ false }
        ensures { (is : List Input) → IsFed self.now is
            → Appends result out.old.items out.new.items (report self.now.policy is) }
    {
        let mut text = Vec::new(self.alloc);
        self.comparisons.report(self.policy.lattice(), &mut text)?;
        out.extend_from_slice(text.as_slice())
    }
}
