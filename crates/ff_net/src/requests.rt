//! The pending requests of one browser.
ghost use Rattle.std.specs.Prelude.{◌≡◌, ◌*◌, IsTrue, IfOk, OnErr, OnOk, MatchOption, length, slice_get};
ghost use Rattle.std.specs.FinMap as finmap;
ghost use Rattle.ff_contract.specs.Rises.{RisesBy};
ghost use Rattle.ff_name.specs.Address.{IsRequest};
ghost use Rattle.ff_machine.specs.Alone.{IsDst};
ghost use Rattle.ff_machine.specs.Net as net;

use crate::ask::Asked;
use crate::asked::{count_to, put_ask, take_ask};
use crate::shrinking_list::ShrinkingList;
use ff_contract::Steps;
use ff_machine::{Dst, MOST_ASKS, MOST_ASKS_OF_DOMAIN, Pending};
use ff_name::{Domain, NoMemory, Text};
use std::alloc::Global;
use std::marker::Model;
use std::sync::ledger::Ledger;

/// The requests whose replies haven't come, seen as the map from each domain that has some to its
/// requests, the oldest first. They are valid at every return: spelled, and within their numbers.
pub struct Requests {
    pub(crate) alloc: Global,
    pub(crate) rows: ShrinkingList<Asked>,
    total: u32,
}

// Written out, so that the proof of a caller sees one call and not a part for each field.
impl Drop for Requests {
    fn drop(self) {
        let Requests {
            alloc: _,
            rows: _rows,
            total: _,
        } = self;
    }
}

impl Model for Requests {
    ghost use Rattle.std.specs.FinMap as finmap;
    ghost use Rattle.ff_machine.specs.Net as net;
    ghost use Rattle.ff_machine.specs.Codes.{coded_requests};

    ghost Value = { net.Requests };

    ghost coded = { coded_requests };

    ghost use Rattle.ff_net.specs.Asks.{AreCounted};

    ghost view = { λ requests. finmap.from_entries requests.rows };

    ghost invariant = { λ requests. AreCounted requests.rows requests.total };
}

impl Requests {
    /// No requests, which take no memory. What they grow by is taken from `alloc`.
    pub fn new(alloc: Global) -> Requests
        ensures { result ≡ finmap.empty }
    {
        Requests {
            alloc,
            rows: ShrinkingList::new(alloc),
            total: 0,
        }
    }

    /// How many requests to the domain are pending.
    pub fn len(&self, domain: &Domain) -> u32
        ensures { result ≡ length (net.asked self.now domain.now) }
    {
        count_to(&self.rows, domain)
    }

    /// Whether one request more may be pending: fewer than 256 of the domain are, and fewer than
    /// 4,096 in all.
    pub fn room(&self, domain: &Domain) -> bool
        ensures { result ≡ net.has_ask_room self.now domain.now }
    {
        let of_domain = self.len(domain) as usize;
        let all = self.total as usize;
        of_domain < MOST_ASKS_OF_DOMAIN && all < MOST_ASKS
    }

    /// Puts a request behind the others of its domain, where there is room. After want of memory
    /// nothing has changed.
    pub fn ask<C: Ledger>(
        &mut self,
        domain: &Domain,
        uri: &Text,
        dst: Dst,
        copies: &mut Steps<C>,
    ) -> Result<(), NoMemory>
        requires room { IsTrue (net.has_ask_room self.old domain.now) }
        requires uri { IsRequest uri.now }
        requires dst { IsDst dst }
        ensures kept { OnErr result (self.new ≡ self.old) }
        ensures done { OnOk result (self.new ≡ net.with_ask self.old domain.now
            (record { uri = uri.now; dst = dst })) }
        ensures copies { RisesBy 33 copies.old copies.new }
    {
        let _known = domain.as_bytes();
        let pending = Pending {
            uri: uri.copy()?,
            dst,
        };
        put_ask(self.alloc, &mut self.rows, domain, pending, copies)?;
        self.total += 1;
        Ok(())
    }

    /// Takes out the domain's request at a place, counted from 0; later ones move down. `None`
    /// exactly where fewer are pending, and then nothing has changed; nor has it after want of
    /// memory.
    pub fn answer<C: Ledger>(
        &mut self,
        domain: &Domain,
        k: u32,
        copies: &mut Steps<C>,
    ) -> Result<Option<Pending>, NoMemory>
        ensures value { IfOk result (λ answer. answer
            ≡ slice_get (net.asked self.old domain.now) k) }
        ensures kept { OnErr result (self.new ≡ self.old) }
        ensures done { IfOk result (λ answer. MatchOption answer (self.new ≡ self.old)
            (λ _. self.new ≡ net.answered self.old domain.now k)) }
        ensures copies { RisesBy (17 * length (net.asked self.old domain.now)) copies.old
            copies.new }
    {
        if k >= self.len(domain) {
            return Ok(None);
        }
        let pending = take_ask(self.alloc, &mut self.rows, domain, k, copies)?;
        self.total -= 1;
        Ok(Some(pending))
    }

    /// Equal requests that share their rows with these: none is copied, and no later change of one
    /// of the two is seen in the other.
    pub fn fork<C: Ledger>(&self, copies: &mut Steps<C>) -> Result<Requests, NoMemory>
        ensures equal { IfOk result (λ requests. requests ≡ self.now) }
        ensures copies { copies.new ≡ copies.old }
    {
        Ok(Requests {
            alloc: self.alloc,
            rows: self.rows.fork(copies)?,
            total: self.total,
        })
    }
}
