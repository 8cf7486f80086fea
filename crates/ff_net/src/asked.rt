//! The rows of pending requests: what is asked of them, and their changes.
ghost use Rattle.std.specs.Prelude.{◌≡◌, ◌+◌, ◌*◌, ◌<◌, Some, IfOk, OnOk, OnErr, length, slice_get};
ghost use Rattle.std.specs.Ordering.{nat_cmp};
ghost use Rattle.std.specs.Cmp.Lexicographic.{slice_cmp};
ghost use Rattle.std.specs.List.{position_or_len};
ghost use Rattle.std.specs.FinMap as finmap;
ghost use Rattle.ff_contract.specs.Rises.{RisesBy};
ghost use Rattle.ff_net.specs.Asks.{is_to, count_rows};
ghost use Rattle.ff_net.specs.Entries.{AreApart};
ghost use Rattle.ff_machine.specs.Net as net;

use crate::ask::{Ask, Asked};
use crate::shrinking_list::ShrinkingList;
use ff_contract::Steps;
use ff_machine::Pending;
use ff_name::{Domain, NoMemory};
use std::alloc::Global;
use std::sync::ledger::Ledger;

/// How many requests to the domain are pending.
pub(crate) fn count_to(rows: &ShrinkingList<Asked>, domain: &Domain) -> u32
    ensures { result ≡ length (net.asked (finmap.from_entries rows.now) domain.now) }
{
    let place = place_to(rows, domain);
    if place < rows.len() {
        rows.at(place).asks().len()
    } else {
        0
    }
}

/// Puts a request behind the others of its domain. A refusal leaves the rows as they were.
pub(crate) fn put_ask<C: Ledger>(
    alloc: Global,
    rows: &mut ShrinkingList<Asked>,
    domain: &Domain,
    pending: Pending,
    copies: &mut Steps<C>,
) -> Result<(), NoMemory>
    requires { AreApart (slice_cmp nat_cmp) rows.old }
    ensures done { OnOk result (finmap.from_entries rows.new
        ≡ net.with_ask (finmap.from_entries rows.old) domain.now pending) }
    ensures apart { OnOk result (AreApart (slice_cmp nat_cmp) rows.new) }
    ensures count { OnOk result (count_rows rows.new ≡ count_rows rows.old + 1) }
    ensures kept { OnErr result (rows.new ≡ rows.old) }
    ensures copies { RisesBy 33 copies.old copies.new }
{
    let place = place_to(rows, domain);
    let mut asks = fork_asks(alloc, rows, place, domain, copies)?;
    asks.push(Ask::of(pending), copies)?;
    put_asks(rows, place, domain, asks, copies)?;
    Ok(())
}

/// Takes out the domain's request at a place that there is, counted from 0; later ones move down.
/// A refusal leaves the rows as they were.
pub(crate) fn take_ask<C: Ledger>(
    alloc: Global,
    rows: &mut ShrinkingList<Asked>,
    domain: &Domain,
    k: u32,
    copies: &mut Steps<C>,
) -> Result<Pending, NoMemory>
    requires apart { AreApart (slice_cmp nat_cmp) rows.old }
    requires there { k < length (net.asked (finmap.from_entries rows.old) domain.now) }
    ensures value { IfOk result (λ pending. slice_get
        (net.asked (finmap.from_entries rows.old) domain.now) k ≡ Some pending) }
    ensures done { OnOk result (finmap.from_entries rows.new
        ≡ net.answered (finmap.from_entries rows.old) domain.now k) }
    ensures apart { OnOk result (AreApart (slice_cmp nat_cmp) rows.new) }
    ensures count { OnOk result (count_rows rows.new + 1 ≡ count_rows rows.old) }
    ensures kept { OnErr result (rows.new ≡ rows.old) }
    ensures copies { RisesBy (17 * length (net.asked (finmap.from_entries rows.old) domain.now))
        copies.old copies.new }
{
    let place = place_to(rows, domain);
    let mut asks = fork_asks(alloc, rows, place, domain, copies)?;
    let pending = asks.at(k).pending().copy()?;
    asks.remove(k, copies)?;
    put_asks(rows, place, domain, asks, copies)?;
    Ok(pending)
}

/// The domain's requests, as a list that shares them with its row.
fn fork_asks<C: Ledger>(
    alloc: Global,
    rows: &ShrinkingList<Asked>,
    place: u32,
    domain: &Domain,
    copies: &mut Steps<C>,
) -> Result<ShrinkingList<Ask>, NoMemory>
    requires { place ≡ position_or_len (is_to domain.now) rows.now }
    ensures equal { IfOk result (λ asks. asks
        ≡ net.asked (finmap.from_entries rows.now) domain.now) }
    ensures copies { copies.new ≡ copies.old }
{
    if place >= rows.len() {
        return Ok(ShrinkingList::new(alloc));
    }
    let asks = rows.at(place).asks().fork(copies)?;
    Ok(asks)
}

/// Gives the domain these requests, and no row where there are none. A refusal leaves the rows as
/// they were.
fn put_asks<C: Ledger>(
    rows: &mut ShrinkingList<Asked>,
    place: u32,
    domain: &Domain,
    asks: ShrinkingList<Ask>,
    copies: &mut Steps<C>,
) -> Result<(), NoMemory>
    requires apart { AreApart (slice_cmp nat_cmp) rows.old }
    requires place { place ≡ position_or_len (is_to domain.now) rows.old }
    ensures done { OnOk result (finmap.from_entries rows.new
        ≡ net.with_asked (finmap.from_entries rows.old) domain.now asks) }
    ensures apart { OnOk result (AreApart (slice_cmp nat_cmp) rows.new) }
    ensures count { OnOk result (count_rows rows.new
        + length (net.asked (finmap.from_entries rows.old) domain.now)
        ≡ count_rows rows.old + length asks) }
    ensures kept { OnErr result (rows.new ≡ rows.old) }
    ensures copies { RisesBy 17 copies.old copies.new }
{
    if place < rows.len() {
        change_row(rows, place, domain, asks, copies)?;
        return Ok(());
    }
    if asks.len() == 0 {
        return Ok(());
    }
    rows.push(Asked::of(domain, asks)?, copies)?;
    Ok(())
}

/// The same where the domain has a row.
fn change_row<C: Ledger>(
    rows: &mut ShrinkingList<Asked>,
    place: u32,
    domain: &Domain,
    asks: ShrinkingList<Ask>,
    copies: &mut Steps<C>,
) -> Result<(), NoMemory>
    requires apart { AreApart (slice_cmp nat_cmp) rows.old }
    requires place { place ≡ position_or_len (is_to domain.now) rows.old }
    requires within { place < length rows.old }
    ensures done { OnOk result (finmap.from_entries rows.new
        ≡ net.with_asked (finmap.from_entries rows.old) domain.now asks) }
    ensures apart { OnOk result (AreApart (slice_cmp nat_cmp) rows.new) }
    ensures count { OnOk result (count_rows rows.new
        + length (net.asked (finmap.from_entries rows.old) domain.now)
        ≡ count_rows rows.old + length asks) }
    ensures kept { OnErr result (rows.new ≡ rows.old) }
    ensures copies { RisesBy 17 copies.old copies.new }
{
    if asks.len() == 0 {
        rows.swap_remove(place, copies)?;
        return Ok(());
    }
    rows.set(place, Asked::of(domain, asks)?, copies)?;
    Ok(())
}

/// The place of the domain's requests, or the number of rows where the domain has none.
fn place_to(rows: &ShrinkingList<Asked>, domain: &Domain) -> u32
    ensures { result ≡ position_or_len (is_to domain.now) rows.now }
{
    for i in 0..rows.len() {
        if rows.at(i).is_to(domain) {
            return i;
        }
    }
    rows.len()
}
