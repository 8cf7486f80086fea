//! Forks of the groups and outputs of a pool, and offers to the groups.
ghost use Rattle.std.specs.Prelude.{◌≡◌, ◌<◌, ℕ, length, slice_index_or, slice_set, IfOk, OnOk};
ghost use Rattle.std.specs.Option.{option_copied};
ghost use Rattle.ff_confinement.specs.Worlds.{leader, offer, AreLeaders};
ghost use Rattle.ff_pool.specs.Heads.{Head, HasForked, offer_head};

use crate::group::Group;
use crate::outs::Outs;
use ff_contract::Steps;
use ff_reactor::{NoMemory, Reactor};
use ff_value::{Input, Offers};
use std::alloc::Global;
use std::sync::ledger::Ledger;

/// Each level that leads a class now and led none before gets a fork of the browser and the inbox
/// of its class.
pub(crate) fn fork_heads<B: Reactor, C: Ledger>(
    heads: &mut [Group<B>],
    old: &[usize],
    new: &[usize],
    copies: &mut Steps<C>,
) -> Result<(), NoMemory>
    requires heads { length heads.old ≡ length old.now }
    requires count { length new.now ≡ length old.now }
    requires led { AreLeaders old.now }
    ensures forked { OnOk result (HasForked old.now new.now heads.old heads.new) }
    ensures copies { copies.new ≡ copies.old }
{
    for l in 0..new.len() {
        if new[l] == l && old[l] != l {
            fork_head(heads, old[l], l, copies)?;
        }
    }
    Ok(())
}

/// One level gets a fork of another one's group.
fn fork_head<B: Reactor, C: Ledger>(
    heads: &mut [Group<B>],
    from: usize,
    to: usize,
    copies: &mut Steps<C>,
) -> Result<(), NoMemory>
    requires from { from < length heads.old }
    requires to { to < length heads.old }
    ensures forked { OnOk result ((d : Head)
        → heads.new ≡ slice_set heads.old to (slice_index_or heads.old from d)) }
    ensures copies { copies.new ≡ copies.old }
{
    let fork = heads[from].fork(copies)?;
    heads[to] = fork;
    Ok(())
}

/// Each class gets the offer of its leader.
pub(crate) fn offer_heads<B: Reactor>(
    heads: &mut [Group<B>],
    leaders: &[usize],
    offers: &Offers<'_>,
) -> Result<(), NoMemory>
    requires heads { length heads.old ≡ length leaders.now }
    requires count { length offers.now ≡ length leaders.now }
    ensures { OnOk result ((l : ℕ) (d : Head) → l < length leaders.now → leader leaders.now l ≡ l
        → slice_index_or heads.new l d ≡ offer_head (slice_index_or heads.old l d)
        (offer offers.now l)) }
{
    for l in 0..leaders.len() {
        if leaders[l] == l {
            offer_head(&mut heads[l], offers.to(l))?;
        }
    }
    Ok(())
}

/// What is offered waits, where there is something.
fn offer_head<B: Reactor>(head: &mut Group<B>, offer: Option<&Input>) -> Result<(), NoMemory>
    ensures { OnOk result (head.new ≡ offer_head head.old (option_copied offer.entry)) }
{
    match offer {
        Some(input) => head.offer(input.copy()?),
        None => Ok(()),
    }
}

/// Forks of all these groups.
pub(crate) fn forked_heads<B: Reactor, C: Ledger>(
    alloc: Global,
    heads: &[Group<B>],
    copies: &mut Steps<C>,
) -> Result<Vec<Group<B>>, NoMemory>
    ensures equal { IfOk result (λ forks. forks.items ≡ heads.now) }
    ensures copies { copies.new ≡ copies.old }
{
    let mut forks = Vec::new(alloc);
    for head in heads {
        forks.push(head.fork(copies)?)?;
    }
    Ok(forks)
}

/// The outputs of all levels once more.
pub(crate) fn forked_outs(alloc: Global, puts: &[Outs]) -> Result<Vec<Outs>, NoMemory>
    ensures { IfOk result (λ forks. forks.items ≡ puts.now) }
{
    let mut forks = Vec::new(alloc);
    for outs in puts {
        forks.push(outs.fork()?)?;
    }
    Ok(forks)
}
