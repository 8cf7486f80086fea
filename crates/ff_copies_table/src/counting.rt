//! How many turns the inputs of a trace take under the built-in policy, counted call by call: each
//! class with work makes steps until it has none, and the step in which a class takes an input is
//! no turn.
ghost use Rattle.std.specs.Prelude.{◌≡◌, ◌<◌, false, IfOk, IfSome};
ghost use Rattle.ff_lattice.specs.Order.{size as count_levels};
ghost use Rattle.ff_confinement.specs.Worlds.{OfferOk, AreOffers};
ghost use Rattle.ff_value.specs.Offers.{offered};
ghost use Rattle.ff_value.specs.Spelled.{IsWellSpelledInput};
ghost use Rattle.ff_trace.specs.Lines.{IsInputOf};

use crate::is_of_two;
use ff_contract::Steps;
use ff_core::Browser;
use ff_name::Level;
use ff_policy::Policy;
use ff_pool::{NoMemory, Pool};
use ff_route::sees;
use ff_trace::{Room, read_input};
use ff_value::{Input, Offer, Offers};
use std::alloc::{AllocError, Global};
use std::sync::ledger::{Blank, Ledger};

/// More steps than any trace of the input takes at one input.
const MOST_STEPS: u32 = 20_000;

/// What a level is offered of an input.
#[tactic(auto, using(crate::proofs::Offered::seen_ok))]
fn offer(alloc: Global, policy: &Policy, l: u8, input: &Input) -> Result<Offer, NoMemory>
    requires level { l < count_levels policy.now.order }
    requires input { IsInputOf policy.now.order input.now }
    ensures { IfOk result (λ offer. OfferOk IsWellSpelledInput (offered input.now offer)) }
{
    sees(alloc, policy, Level(l), input)
}

/// These offers of an input to the two levels.
pub(crate) fn two_offers<'a>(
    alloc: Global,
    input: &'a Input,
    low: Offer,
    high: Offer,
) -> Result<Offers<'a>, NoMemory>
    requires low { OfferOk IsWellSpelledInput (offered input.now low) }
    requires high { OfferOk IsWellSpelledInput (offered input.now high) }
    ensures { IfOk result (λ offers. AreOffers IsWellSpelledInput 2 offers) }
{
    let mut offers = Vec::new(alloc);
    offers.push(low)?;
    offers.push(high)?;
    Ok(Offers::of(input, offers))
}

/// What the two levels are offered of an input.
pub(crate) fn offers<'a>(
    alloc: Global,
    policy: &Policy,
    input: &'a Input,
) -> Result<Offers<'a>, NoMemory>
    requires input { IsInputOf policy.now.order input.now }
    ensures { IfOk result (λ offers. AreOffers IsWellSpelledInput 2 offers) }
{
    if policy.lattice().size() != 2 {
        return Err(AllocError);
    }
    let low = offer(alloc, policy, 0, input)?;
    let high = offer(alloc, policy, 1, input)?;
    two_offers(alloc, input, low, high)
}

/// The input of a line, if it holds one.
pub(crate) fn input_of(
    alloc: Global,
    policy: &Policy,
    line: &str,
) -> Result<Option<Input>, NoMemory>
    ensures { IfOk result (λ input. IfSome input (IsInputOf policy.now.order)) }
{
    if line.len() > 65_536 {
        return Err(AllocError);
    }
    let mut room = Room::new(alloc);
    match read_input(alloc, &mut room, line.as_bytes(), policy.lattice()) {
        Ok(input) => Ok(input),
        Err(_) => Err(AllocError),
    }
}

/// Whether a level leads its class and has work.
fn is_due(pool: &Pool<Browser>, l: u8) -> bool
    requires { l < 2 }
{
    if !is_of_two(pool) {
        return false;
    }
    let leads = l == 0 || pool.members(Level(0)).len() == 1;
    leads && pool.has_work(Level(l))
}

/// The steps of a level's class until it has no work.
fn steps<C: Ledger, L: Ledger>(
    pool: &mut Pool<Browser>,
    l: u8,
    copies: &mut Steps<C>,
    turns: &mut Steps<L>,
) -> Result<u32, NoMemory>
    requires { l < 2 }
{
    for made in 0..MOST_STEPS {
        if !is_due(pool, l) || !is_of_two(pool) {
            return Ok(made);
        }
        pool.turn(Level(l), copies, turns)?;
    }
    Ok(MOST_STEPS)
}

/// The turns that an input takes.
fn turns_of<C: Ledger, L: Ledger>(
    alloc: Global,
    policy: &Policy,
    input: &Input,
    pool: &mut Pool<Browser>,
    copies: &mut Steps<C>,
    turns: &mut Steps<L>,
) -> Result<u32, NoMemory>
    requires { IsInputOf policy.now.order input.now }
{
    if !is_of_two(pool) {
        return Err(AllocError);
    }
    let offers = offers(alloc, policy, input)?;
    pool.arrive(&offers, copies)?;
    let mut count = 0;
    for l in 0..2 {
        let takes = is_due(pool, l);
        let made = steps(pool, l, copies, turns)?;
        count = made.saturating_sub(u32::from(takes)).saturating_add(count);
    }
    Ok(count)
}

/// The turns that the inputs of the lines take in a pool, each by itself.
fn counted<C: Ledger, L: Ledger>(
    alloc: Global,
    policy: &Policy,
    lines: &[String],
    pool: &mut Pool<Browser>,
    copies: &mut Steps<C>,
    turns: &mut Steps<L>,
) -> Result<Vec<u32>, NoMemory> {
    let mut counts = Vec::new(alloc);
    for line in lines {
        if let Some(input) = input_of(alloc, policy, line.as_str())? {
            counts.push(turns_of(alloc, policy, &input, pool, copies, turns)?)?;
        }
    }
    Ok(counts)
}

/// The turns that the inputs of these lines take, each by itself.
pub fn count<C: Ledger, L: Ledger>(
    alloc: Global,
    lines: &[String],
    copies: Blank,
    turns: Blank,
) -> Result<Vec<u32>, NoMemory>
    requires copies_name { copies.name ≡ C.name }
    requires copies_parts { copies.parts ≡ C.parts }
    requires copies_some { 0 < copies.parts }
    requires turns_name { turns.name ≡ L.name }
    requires turns_parts { turns.parts ≡ L.parts }
    requires turns_some { 0 < turns.parts }
{
    let mut copies = Steps::<C>::new(copies);
    let mut turns = Steps::<L>::new(turns);
    let policy = Policy::builtin(alloc)?;
    let mut pool = Pool::<Browser>::new(alloc, 2, policy.fuel())?;
    counted(alloc, &policy, lines, &mut pool, &mut copies, &mut turns)
}
