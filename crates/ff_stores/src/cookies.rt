//! Cookies, those of scripts and those of replies.
ghost use Rattle.std.specs.Prelude.{◌≡◌, ◌*◌, length, OnOk};
ghost use Rattle.std.specs.List.{AllByRecursion};
ghost use Rattle.ff_contract.specs.Rises.{RisesBy};
ghost use Rattle.ff_operators.specs.Answers.{Answers, OnFault};
ghost use Rattle.ff_value.specs.Spelled.{IsCookieOp};
ghost use Rattle.ff_machine.specs.Net as net;
ghost use Rattle.ff_machine.specs.Stores as s;

use crate::stores::Stores;
use ff_contract::Steps;
use ff_name::{Domain, NoMemory, Text};
use ff_net::Jar;
use ff_operators::{Fail, fault_or_emptied, or_emptied};
use ff_value::{CookieOp, Cookies};
use std::alloc::AllocError;
use std::sync::ledger::Ledger;

impl Stores {
    /// Sets a domain's cookie. It is refused with `Range` exactly where the key hasn't 1 to 256
    /// bytes or the value has more than 4,096, and then with `Limit` exactly where the key is new
    /// and there is no room for one more.
    pub fn put_cookie<C: Ledger>(
        &mut self,
        domain: &Domain,
        key: &Text,
        value: &Text,
        copies: &mut Steps<C>,
    ) -> Result<(), Fail>
        ensures done { OnOk result (self.new ≡ record self.old
            { jar = net.cookie_put self.old.jar domain.now key.now value.now }) }
        ensures answer { Answers (net.cookie_fault self.old.jar domain.now key.now value.now)
            result }
        ensures kept { OnFault result (self.new ≡ self.old) }
        ensures copies { RisesBy 16 copies.old copies.new }
    {
        let _known = domain.text();
        let _known = key.as_bytes();
        let _known = value.as_bytes();
        fault_or_emptied!(
            self.jar.put(domain, key, value, copies),
            nothing_left!(self)
        )
    }

    /// Takes out a domain's cookie, where there is one.
    pub fn delete_cookie<C: Ledger>(
        &mut self,
        domain: &Domain,
        key: &Text,
        copies: &mut Steps<C>,
    ) -> Result<(), NoMemory>
        ensures done { OnOk result (self.new ≡ record self.old
            { jar = net.cookie_deleted self.old.jar domain.now key.now }) }
        ensures copies { RisesBy 17 copies.old copies.new }
    {
        let _known = domain.text();
        or_emptied!(
            self.jar.delete(domain, key.as_bytes(), copies),
            nothing_left!(self)
        )
    }

    /// Puts the cookies of a reply, one after another, at its domain. One that can't be put is
    /// skipped.
    pub fn put_cookies<C: Ledger>(
        &mut self,
        domain: &Domain,
        entries: &Cookies,
        copies: &mut Steps<C>,
    ) -> Result<(), NoMemory>
        requires { AllByRecursion IsCookieOp entries.now }
        ensures done { OnOk result (self.new ≡ s.put_cookies self.old domain.now entries.now) }
        ensures copies { RisesBy (17 * length entries.now) copies.old copies.new }
    {
        let _known = domain.text();
        or_emptied!(
            put_each(&mut self.jar, domain, entries, copies),
            nothing_left!(self)
        )
    }
}

/// Puts entries one after another, but none that can't be put.
fn put_each<C: Ledger>(
    jar: &mut Jar,
    domain: &Domain,
    entries: &Cookies,
    copies: &mut Steps<C>,
) -> Result<(), NoMemory>
    ensures done { OnOk result (jar.new ≡ s.put_each domain.now entries.now jar.old) }
    ensures copies { RisesBy (17 * length entries.now) copies.old copies.new }
{
    for entry in entries.as_slice() {
        put_one(jar, domain, entry, copies)?;
    }
    Ok(())
}

/// Puts an entry, if it can be put.
fn put_one<C: Ledger>(
    jar: &mut Jar,
    domain: &Domain,
    entry: &CookieOp,
    copies: &mut Steps<C>,
) -> Result<(), NoMemory>
    ensures done { OnOk result (jar.new ≡ s.put_cookie domain.now entry.now jar.old) }
    ensures copies { RisesBy 17 copies.old copies.new }
{
    match entry {
        CookieOp::Put(key, value) => match jar.put(domain, key, value, copies) {
            Ok(()) => Ok(()),
            Err(Fail::Fault(_skipped)) => Ok(()),
            Err(Fail::NoMemory) => Err(AllocError),
        },
        CookieOp::Drop(key) => jar.delete(domain, key.as_bytes(), copies),
    }
}
