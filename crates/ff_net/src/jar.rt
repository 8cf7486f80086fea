//! The cookies of one browser.
ghost use Rattle.std.specs.Prelude.{◌≡◌, IfOk, OnErr, OnOk};
ghost use Rattle.std.specs.Option.{option_copied};
ghost use Rattle.std.specs.FinMap as finmap;
ghost use Rattle.ff_contract.specs.Rises.{RisesBy};
ghost use Rattle.ff_machine.specs.Alone.{IsJar};
ghost use Rattle.ff_machine.specs.Net as net;
ghost use Rattle.ff_operators.specs.Answers.{Answers};

use crate::cookie::{Cookie, has_cookie_size, has_room, place_of};
use crate::pairs::pairs_of;
use crate::shrinking_list::ShrinkingList;
use ff_contract::Steps;
use ff_name::{Domain, NoMemory, Text};
use ff_operators::Fail;
use ff_value::{Fault, Pairs};
use std::alloc::Global;
use std::marker::Model;
use std::sync::ledger::Ledger;

/// The cookies, seen as the map from domains and keys to values. They are valid at every return:
/// spelled, and within their sizes and numbers.
pub struct Jar {
    pub(crate) alloc: Global,
    pub(crate) cookies: ShrinkingList<Cookie>,
}

// Written out, so that the proof of a caller sees one call and not a part for each field.
impl Drop for Jar {
    fn drop(self) {
        let Jar {
            alloc: _,
            cookies: _cookies,
        } = self;
    }
}

impl Model for Jar {
    ghost use Rattle.std.specs.FinMap as finmap;
    ghost use Rattle.ff_machine.specs.Net as net;
    ghost use Rattle.ff_machine.specs.Codes.{coded_jar};

    ghost Value = { net.Jar };

    ghost coded = { coded_jar };

    ghost use Rattle.ff_net.specs.Cookies.{AreCookies};

    ghost view = { λ jar. finmap.from_entries jar.cookies };

    ghost invariant = { λ jar. AreCookies jar.cookies };
}

impl Jar {
    /// The jar with no cookies, which takes no memory. What it grows by is taken from `alloc`.
    pub fn new(alloc: Global) -> Jar
        ensures { result ≡ finmap.empty }
    {
        Jar {
            alloc,
            cookies: ShrinkingList::new(alloc),
        }
    }

    /// How many cookies there are.
    pub fn len(&self) -> u32
        ensures value { result ≡ finmap.len self.now }
        ensures valid { IsJar self.now }
    {
        self.cookies.len()
    }

    /// The value of a domain's cookie, lent.
    pub fn get(&self, domain: &Domain, key: &[u8]) -> Option<&Text>
        ensures { option_copied result ≡ net.cookie self.now domain.now key.now }
    {
        let place = place_of(&self.cookies, domain, key);
        if place < self.cookies.len() {
            Some(self.cookies.at(place).value())
        } else {
            None
        }
    }

    /// Sets a domain's cookie. It is refused with `Range` exactly where the key hasn't 1 to 256
    /// bytes or the value has more than 4,096, and then with `Limit` exactly where the key is new
    /// and the domain has 64 cookies or the jar has 1,024. After a fault, and after want of memory,
    /// nothing has changed.
    pub fn put<C: Ledger>(
        &mut self,
        domain: &Domain,
        key: &Text,
        value: &Text,
        copies: &mut Steps<C>,
    ) -> Result<(), Fail>
        ensures done { OnOk result (self.new ≡ net.cookie_put self.old domain.now key.now
            value.now) }
        ensures answer { Answers (net.cookie_fault self.old domain.now key.now value.now) result }
        ensures kept { OnErr result (self.new ≡ self.old) }
        ensures copies { RisesBy 16 copies.old copies.new }
    {
        if !has_cookie_size(key, value) {
            return Err(Fail::Fault(Fault::Range));
        }
        let _known = domain.as_bytes();
        let _known = key.as_bytes();
        let _known = value.as_bytes();
        let place = place_of(&self.cookies, domain, key.as_bytes());
        if place < self.cookies.len() {
            self.cookies
                .set(place, Cookie::of(domain, key, value)?, copies)?;
        } else {
            if !has_room(&self.cookies, domain) {
                return Err(Fail::Fault(Fault::Limit));
            }
            self.cookies.push(Cookie::of(domain, key, value)?, copies)?;
        }
        Ok(())
    }

    /// Takes out a domain's cookie, where there is one. After want of memory nothing has changed.
    pub fn delete<C: Ledger>(
        &mut self,
        domain: &Domain,
        key: &[u8],
        copies: &mut Steps<C>,
    ) -> Result<(), NoMemory>
        ensures done { OnOk result (self.new ≡ net.cookie_deleted self.old domain.now key.now) }
        ensures kept { OnErr result (self.new ≡ self.old) }
        ensures copies { RisesBy 17 copies.old copies.new }
    {
        let place = place_of(&self.cookies, domain, key);
        if place < self.cookies.len() {
            self.cookies.swap_remove(place, copies)?;
        }
        Ok(())
    }

    /// A domain's keys and values, in byte order of the keys.
    pub fn of(&self, domain: &Domain) -> Result<Pairs, NoMemory>
        ensures { IfOk result (λ pairs. pairs ≡ net.pairs_of self.now domain.now) }
    {
        let pairs = pairs_of(self.alloc, &self.cookies, domain)?;
        Pairs::from_vec(self.alloc, pairs)
    }

    /// An equal jar that shares its cookies with this one: none is copied, and no later change of
    /// one of the two is seen in the other.
    pub fn fork<C: Ledger>(&self, copies: &mut Steps<C>) -> Result<Jar, NoMemory>
        ensures equal { IfOk result (λ jar. jar ≡ self.now) }
        ensures copies { copies.new ≡ copies.old }
    {
        Ok(Jar {
            alloc: self.alloc,
            cookies: self.cookies.fork(copies)?,
        })
    }
}
