//! The pairs of a domain's cookies, gathered in byte order of their keys.
ghost use Rattle.std.specs.Prelude.{◌≡◌, ◌≤◌, IfOk, OnOk, length};
ghost use Rattle.std.specs.List.{insert, position_or_len};
ghost use Rattle.std.specs.FinMap as finmap;
ghost use Rattle.ff_machine.specs.Net as net;
ghost use Rattle.ff_net.specs.Cookies.{is_above};
ghost use Rattle.ff_net.specs.Entries.{AreApart};

use crate::cookie::Cookie;
use crate::shrinking_list::ShrinkingList;
use ff_name::{Domain, NoMemory, Text};
use ff_value::Pair;
use std::alloc::Global;

/// The pairs of the domain's cookies, which share their bytes with the cookies.
pub(crate) fn pairs_of(
    alloc: Global,
    cookies: &ShrinkingList<Cookie>,
    domain: &Domain,
) -> Result<Vec<Pair>, NoMemory>
    requires { AreApart net.cookie_cmp cookies.now }
    ensures { IfOk result (λ pairs. pairs.items
        ≡ net.pairs_of (finmap.from_entries cookies.now) domain.now) }
{
    let mut pairs = Vec::new(alloc);
    let mut i = cookies.len();
    while i > 0 {
        i -= 1;
        let cookie = cookies.at(i);
        if cookie.is_of(domain) {
            put_in_order(&mut pairs, cookie.pair()?)?;
        }
    }
    Ok(pairs)
}

/// Puts a pair before the first one of a greater key.
fn put_in_order(pairs: &mut Vec<Pair>, pair: Pair) -> Result<(), NoMemory>
    ensures { OnOk result (pairs.new.items ≡ insert pairs.old.items
        (position_or_len (is_above pair.key) pairs.old.items) pair) }
{
    let place = place_for(pairs, &pair.key);
    pairs.insert(place, pair)?;
    Ok(())
}

/// The place of the first pair of a greater key, or the number of pairs where there is none.
fn place_for(pairs: &[Pair], key: &Text) -> usize
    ensures value { result ≡ position_or_len (is_above key.now) pairs.now }
    ensures within { result ≤ length pairs.now }
{
    for (i, pair) in pairs.iter().enumerate() {
        if key.cmp(&pair.key).is_lt() {
            return i;
        }
    }
    pairs.len()
}
