//! Pending requests: one, and those of one domain.
ghost use Rattle.std.specs.Prelude.{◌≡◌, IfOk};
ghost use Rattle.ff_net.specs.Asks.{is_to};

use crate::shrinking_list::ShrinkingList;
use ff_contract::Steps;
use ff_cow::Cell;
use ff_machine::Pending;
use ff_name::{Domain, NoMemory};
use std::marker::Model;
use std::sync::ledger::Ledger;

/// A pending request as a cell of a list.
#[derive(Drop)]
pub(crate) struct Ask {
    pending: Pending,
}

impl Model for Ask {
    ghost use Rattle.ff_machine.specs.declared.records.Pending.{Pending};
    ghost use Rattle.ff_machine.specs.contracts.records.Pending as request;

    ghost Value = { Pending };

    ghost coded = { request.the_row.coded };

    ghost view = { λ ask. ask.pending };
}

impl Ask {
    pub(crate) fn of(pending: Pending) -> Ask
        ensures { result ≡ pending }
    {
        Ask { pending }
    }

    pub(crate) fn pending(&self) -> &Pending
        ensures { result.now ≡ self.now }
    {
        &self.pending
    }
}

impl<C: Ledger> Cell<C> for Ask {
    fn copy(&self, copies: &mut Steps<C>) -> Result<Ask, NoMemory> {
        copies.tick();
        Ok(Ask {
            pending: self.pending.copy()?,
        })
    }
}

/// The pending requests of one domain, the oldest first, seen as the entry that they are in the
/// map of all.
#[derive(Drop)]
pub(crate) struct Asked {
    domain: Domain,
    asks: ShrinkingList<Ask>,
}

impl Model for Asked {
    ghost use Rattle.std.specs.Prelude.{ℕ, List};
    ghost use Rattle.std.specs.Coded.{coded×, coded_list, coded_ℕ};
    ghost use Rattle.ff_machine.specs.declared.records.Pending.{Pending};
    ghost use Rattle.ff_machine.specs.contracts.records.Pending as request;

    ghost Value = { List ℕ × List Pending };

    ghost coded = { coded× (coded_list coded_ℕ) (coded_list request.the_row.coded) };

    ghost view = { λ asked. (asked.domain, asked.asks) };
}

impl Asked {
    pub(crate) fn of(domain: &Domain, asks: ShrinkingList<Ask>) -> Result<Asked, NoMemory>
        ensures { IfOk result (λ asked. asked ≡ (domain.now, asks)) }
    {
        Ok(Asked {
            domain: domain.copy()?,
            asks,
        })
    }

    pub(crate) fn domain(&self) -> &Domain
        ensures { result.now ≡ self.now.0 }
    {
        &self.domain
    }

    pub(crate) fn asks(&self) -> &ShrinkingList<Ask>
        ensures { result.now ≡ self.now.1 }
    {
        &self.asks
    }

    /// Whether these are requests to the domain.
    pub(crate) fn is_to(&self, domain: &Domain) -> bool
        ensures { result ≡ is_to domain.now self.now }
    {
        self.domain.as_bytes() == domain.as_bytes()
    }
}

impl<C: Ledger> Cell<C> for Asked {
    fn copy(&self, copies: &mut Steps<C>) -> Result<Asked, NoMemory> {
        copies.tick();
        Asked::of(&self.domain, self.asks.fork(copies)?)
    }
}
