//! One cookie, and what is asked of all of them.
ghost use Rattle.std.specs.Prelude.{◌≡◌, ◌≤◌, IfOk, length, count_by};
ghost use Rattle.std.specs.List.{position_or_len};
ghost use Rattle.ff_net.specs.Cookies.{is_of, is_at};
ghost use Rattle.ff_net.specs.Entries.{AreApart};
ghost use Rattle.ff_machine.specs.Net as net;
ghost use Rattle.std.specs.FinMap as finmap;

use crate::shrinking_list::ShrinkingList;
use ff_contract::Steps;
use ff_cow::Cell;
use ff_machine::{MOST_COOKIES, MOST_COOKIES_OF_DOMAIN, MOST_KEY_BYTES, MOST_VALUE_BYTES};
use ff_name::{Domain, NoMemory, Text};
use ff_value::Pair;
use std::marker::Model;
use std::sync::ledger::Ledger;

/// A cookie, seen as the entry that it is in the map of all: its domain and key, and its value.
#[derive(Drop)]
pub(crate) struct Cookie {
    domain: Domain,
    key: Text,
    value: Text,
}

impl Model for Cookie {
    ghost use Rattle.std.specs.Prelude.{ℕ, List};
    ghost use Rattle.std.specs.Coded.{coded×, coded_list, coded_ℕ};

    ghost Value = { (List ℕ × List ℕ) × List ℕ };

    ghost coded = { coded× (coded× (coded_list coded_ℕ) (coded_list coded_ℕ))
        (coded_list coded_ℕ) };

    ghost view = { λ c. ((c.domain, c.key), c.value) };
}

impl Cookie {
    /// The cookie of these, whose texts it shares.
    pub(crate) fn of(domain: &Domain, key: &Text, value: &Text) -> Result<Cookie, NoMemory>
        ensures { IfOk result (λ cookie. cookie ≡ ((domain.now, key.now), value.now)) }
    {
        Ok(Cookie {
            domain: domain.copy()?,
            key: key.copy()?,
            value: value.copy()?,
        })
    }

    pub(crate) fn value(&self) -> &Text
        ensures { result.now ≡ self.now.1 }
    {
        &self.value
    }

    /// The key and the value, which share their bytes with the cookie.
    pub(crate) fn pair(&self) -> Result<Pair, NoMemory>
        ensures { IfOk result (λ pair. pair ≡ record { key = self.now.0.1; value = self.now.1 }) }
    {
        Ok(Pair {
            key: self.key.copy()?,
            value: self.value.copy()?,
        })
    }

    /// The domain, the key and the value, which share their bytes with the cookie.
    pub(crate) fn parts(&self) -> Result<(Domain, Text, Text), NoMemory>
        ensures { IfOk result (λ parts. ((parts.0, parts.1), parts.2) ≡ self.now) }
    {
        Ok((self.domain.copy()?, self.key.copy()?, self.value.copy()?))
    }

    /// Whether the cookie is the domain's.
    pub(crate) fn is_of(&self, domain: &Domain) -> bool
        ensures { result ≡ is_of domain.now self.now }
    {
        self.domain.as_bytes() == domain.as_bytes()
    }

    /// Whether the cookie is the domain's with this key.
    pub(crate) fn is_at(&self, domain: &Domain, key: &[u8]) -> bool
        ensures { result ≡ is_at domain.now key.now self.now }
    {
        self.is_of(domain) && self.key.as_bytes() == key
    }
}

impl<C: Ledger> Cell<C> for Cookie {
    fn copy(&self, copies: &mut Steps<C>) -> Result<Cookie, NoMemory> {
        copies.tick();
        Cookie::of(&self.domain, &self.key, &self.value)
    }
}

/// Whether a cookie may have this key and this value.
pub(crate) fn has_cookie_size(key: &Text, value: &Text) -> bool
    ensures { result ≡ net.has_cookie_size key.now value.now }
{
    let key_bytes = key.as_bytes().len();
    let value_bytes = value.as_bytes().len();
    1 <= key_bytes && key_bytes <= MOST_KEY_BYTES && value_bytes <= MOST_VALUE_BYTES
}

/// How many of the cookies are the domain's.
pub(crate) fn count_of(cookies: &ShrinkingList<Cookie>, domain: &Domain) -> u32
    ensures { result ≡ count_by (is_of domain.now) cookies.now }
{
    let mut count = 0;
    for i in 0..cookies.len() {
        if cookies.at(i).is_of(domain) {
            count += 1;
        }
    }
    count
}

/// The place of the domain's cookie with this key, or the number of cookies where there is none.
pub(crate) fn place_of(cookies: &ShrinkingList<Cookie>, domain: &Domain, key: &[u8]) -> u32
    ensures { result ≡ position_or_len (is_at domain.now key.now) cookies.now }
{
    for i in 0..cookies.len() {
        if cookies.at(i).is_at(domain, key) {
            return i;
        }
    }
    cookies.len()
}

/// Whether one cookie more of the domain is within the limits.
pub(crate) fn has_room(cookies: &ShrinkingList<Cookie>, domain: &Domain) -> bool
    requires { AreApart net.cookie_cmp cookies.now }
    ensures { result ≡ net.has_cookie_room (finmap.from_entries cookies.now) domain.now }
{
    let of_domain = count_of(cookies, domain) as usize;
    let all = cookies.len() as usize;
    of_domain < MOST_COOKIES_OF_DOMAIN && all < MOST_COOKIES
}
