//! Pending requests as records, and requests that are made of them.
ghost use Rattle.std.specs.Prelude.{◌≡◌, ◌≤◌, ◌↔◌, ◌++◌, IsTrue, IfOk, OnOk};
ghost use Rattle.std.specs.Ordering.{is_lt, nat_cmp};
ghost use Rattle.std.specs.Cmp.Lexicographic.{slice_cmp};
ghost use Rattle.std.specs.FinMap as finmap;
ghost use Rattle.ff_machine.specs.Alone.{AreRequests, IsDst, IsPending};
ghost use Rattle.ff_net.specs.Asks.{Climb};
ghost use Rattle.ff_records.specs.Records.{ask_recs, asks_of};
ghost use Rattle.ff_records.specs.Restored.{Restores};

use crate::ask::{Ask, Asked};
use crate::requests::Requests;
use crate::shrinking_list::ShrinkingList;
use ff_contract::Steps;
use ff_machine::{Dst, Pending};
use ff_name::{Domain, NoMemory};
use ff_records::{AskRec, AskRecs};
use ff_shared::OwnedList;
use ff_spelling::{is_handler, is_request};
use std::alloc::{AllocError, Global};
use std::collections::BTreeMap;
use std::sync::ledger::Ledger;

impl Requests {
    /// The requests as records, by domain in byte order, those of a domain the oldest first. They
    /// share their texts and functions with these.
    pub fn records(&self) -> Result<AskRecs, NoMemory>
        ensures { IfOk result (λ recs. recs ≡ ask_recs self.now) }
    {
        let sorted = in_order(self.alloc, &self.rows)?;
        let mut recs = Vec::new(self.alloc);
        for (domain, asks) in sorted {
            push_asks(&mut recs, &domain, asks)?;
        }
        Ok(AskRecs::from_vec(recs))
    }

    /// The requests that have these records, whose texts and functions they share. `None` exactly
    /// where no valid requests have them: the domains aren't in order, a request text is not that
    /// of an address, a callback is no well spelled function of one parameter, or there are too
    /// many.
    pub fn restore<C: Ledger>(
        alloc: Global,
        recs: &AskRecs,
        copies: &mut Steps<C>,
    ) -> Result<Option<Requests>, NoMemory>
        ensures value { IfOk result (Restores AreRequests ask_recs recs.now) }
        ensures later { copies.old ≤ copies.new }
    {
        let recs = recs.as_slice();
        if !climb(recs) {
            return Ok(None);
        }
        let mut requests = Requests::new(alloc);
        for rec in recs {
            let _known = rec.domain.as_bytes();
            let valid = is_pending(alloc, &rec.pending)?;
            if !valid {
                return Ok(None);
            }
            if !requests.room(&rec.domain) {
                return Ok(None);
            }
            let dst = rec.pending.dst.copy()?;
            requests.ask(&rec.domain, &rec.pending.uri, dst, copies)?;
        }
        Ok(Some(requests))
    }
}

/// Puts the requests of a domain as records behind others.
fn push_asks(
    recs: &mut Vec<AskRec>,
    domain: &Domain,
    asks: OwnedList<Pending>,
) -> Result<(), NoMemory>
    ensures { OnOk result (recs.new.items ≡ recs.old.items ++ asks_of (domain.now, asks)) }
{
    for pending in asks.into_vec() {
        recs.push(AskRec {
            domain: domain.copy()?,
            pending,
        })?;
    }
    Ok(())
}

/// Whether the domains of requests never fall.
fn climb(recs: &[AskRec]) -> bool
    ensures { IsTrue result ↔ Climb recs.now }
{
    let count = recs.len();
    if count == 0 {
        return true;
    }
    let mut i = count - 1;
    while i > 0 {
        if comes_before(&recs[i].domain, &recs[i - 1].domain) {
            return false;
        }
        i -= 1;
    }
    true
}

/// The requests of each domain, in the order of the domains.
fn in_order(
    alloc: Global,
    rows: &ShrinkingList<Asked>,
) -> Result<BTreeMap<Domain, OwnedList<Pending>>, NoMemory>
    ensures { IfOk result (λ map. map.entries
        ≡ finmap.entries (finmap.from_entries {R = slice_cmp nat_cmp} rows.now)) }
{
    let mut sorted = BTreeMap::new(alloc);
    let mut i = rows.len();
    while i > 0 {
        i -= 1;
        let row = rows.at(i);
        let domain = row.domain().copy()?;
        let asks = asks_again(alloc, row.asks())?;
        let Ok(_) = sorted.insert(domain, asks) else {
            return Err(AllocError);
        };
    }
    Ok(sorted)
}

/// Equal requests, which share their texts and functions.
fn asks_again(alloc: Global, asks: &ShrinkingList<Ask>) -> Result<OwnedList<Pending>, NoMemory>
    ensures { IfOk result (λ copies. copies ≡ asks.now) }
{
    let mut copies = Vec::new(alloc);
    for i in 0..asks.len() {
        copies.push(asks.at(i).pending().copy()?)?;
    }
    Ok(OwnedList::from_vec(copies))
}

/// Whether a domain comes before another in byte order.
fn comes_before(domain: &Domain, other: &Domain) -> bool
    ensures { result ≡ is_lt (slice_cmp nat_cmp domain.now other.now) }
{
    domain.cmp(other).is_lt()
}

/// Whether a request has the request text of an address, and its destination is valid.
fn is_pending(alloc: Global, pending: &Pending) -> Result<bool, NoMemory>
    ensures { IfOk result (λ is. IsTrue is ↔ IsPending pending.now) }
{
    let has_dst = is_dst(alloc, &pending.dst)?;
    Ok(is_request(&pending.uri) && has_dst)
}

/// Whether a destination is a window, a slot, or a call of a handler.
fn is_dst(alloc: Global, dst: &Dst) -> Result<bool, NoMemory>
    ensures { IfOk result (λ is. IsTrue is ↔ IsDst dst.now) }
{
    match dst {
        Dst::Window(_) => Ok(true),
        Dst::Slot(_, slot) => {
            let _known = *slot;
            Ok(true)
        }
        Dst::Call(_, code) => is_handler(alloc, code),
    }
}
