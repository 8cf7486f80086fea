//! Stories of a pool of two levels under the built-in policy, each told twice: by single calls, and
//! by one `play` over the same events. A class may part in the middle of a script, and so may a
//! fork and the pool that it was made of.
//!
//! | Line | What comes |
//! |---|---|
//! | `all INPUT` | each level is offered what it sees of the input |
//! | `high INPUT` | the higher level alone is offered the input |
//! | `turn LEVEL COUNT` | so many steps of the level's class |
//! | `drain COUNT` | the pool is drained, so many steps of a class at a time |
//! | `fork` | a fork of the pool is kept, in place of the one before |
//! | `swap` | the story goes on with the fork, and the pool is kept in its place |
ghost use Rattle.std.specs.Prelude.{◌≡◌, ◌<◌, ◌≤◌, All, IfOk, IfSome, OnOk, false};
ghost use Rattle.ff_reactor.specs.declared.reactor.TheConstants.{MOST_BUDGET};
ghost use Rattle.ff_lattice.specs.Order.{size as count_levels};
ghost use Rattle.ff_value.specs.Spelled.{IsWellSpelledInput};
ghost use Rattle.ff_trace.specs.Lines.{IsInputOf};
ghost use Rattle.ff_copies_table.specs.Story.{IsLineOf};
ghost use Rattle.ff_confinement.specs.Worlds.{OfferOk, AreOffers};
ghost use Rattle.ff_pool.specs.Events.{IsEvent};

use crate::counting::{input_of, offers, two_offers};
use crate::{Classes, classes, is_of_two, show_classes};
use ff_contract::Steps;
use ff_core::Browser;
use ff_name::Level;
use ff_policy::Policy;
use ff_pool::{Event, NoMemory, Pool};
use ff_trace::print_out;
use ff_value::{Input, Offer, Offers};
use std::alloc::{AllocError, Global};
use std::marker::Brand;
use std::sync::ledger::{Blank, Ledger};
use std::{io, mem, str};

/// What is told of a pool in the end: what each level's copy has put, what of it the higher one has
/// once that was taken, its class, and whether all is quiet.
#[derive(Drop)]
struct Ending {
    low: Vec<u8>,
    high: Vec<u8>,
    left: Vec<u8>,
    classes: Classes,
}

/// The pool that a story is of, and the one that is kept.
#[derive(Drop)]
struct Pools {
    pool: Pool<Browser>,
    kept: Pool<Browser>,
}

/// What is told of a story: the classes after each line, the endings of the pool and of its fork,
/// and the same of the one call.
#[derive(Drop)]
struct Told {
    lines: Vec<Classes>,
    pool: Ending,
    fork: Ending,
    played: Ending,
}

/// A line of a story, with the input that it offers, if it offers one.
#[derive(Drop)]
struct Line<'a> {
    text: &'a str,
    input: Option<Input>,
}

/// What the two levels are offered of the input of a line.
fn offers_of<'a>(
    alloc: Global,
    policy: &Policy,
    word: &str,
    input: &'a Input,
) -> Result<Offers<'a>, NoMemory>
    requires { IsInputOf policy.now.order input.now }
    ensures { IfOk result (λ offers. AreOffers IsWellSpelledInput 2 offers) }
{
    if word == "high" {
        two_offers(alloc, input, Offer::Nothing, Offer::Whole)
    } else {
        offers(alloc, policy, input)
    }
}

/// The level and the number of steps that a line tells.
fn steps_of(rest: &str) -> Result<(u8, u32), NoMemory>
    ensures { IfOk result (λ steps. steps.0 < 2) }
{
    match rest.split_once(' ') {
        Some((level, count)) => match (level.parse::<u8>(), count.parse::<u32>()) {
            (Ok(level), Ok(count)) if level < 2 => Ok((level, count)),
            _ => Err(AllocError),
        },
        None => Err(AllocError),
    }
}

/// Two new pools of two levels.
fn new_pools(alloc: Global, fuel: u32) -> Result<Pools, NoMemory>
    requires some { 1 ≤ fuel }
    requires most { fuel ≤ MOST_BUDGET }
{
    let pool = Pool::<Browser>::new(alloc, 2, fuel)?;
    let kept = Pool::<Browser>::new(alloc, 2, fuel)?;
    Ok(Pools { pool, kept })
}

/// How many steps of a class a drain makes at a time.
fn slice_of(rest: &str) -> Result<u32, NoMemory>
    ensures { IfOk result (λ slice. 0 < slice) }
{
    match rest.parse::<u32>() {
        Ok(slice) if slice > 0 => Ok(slice),
        _ => Err(AllocError),
    }
}

/// Makes so many steps of a level's class.
fn make_steps<C: Ledger, L: Ledger>(
    rest: &str,
    pool: &mut Pool<Browser>,
    copies: &mut Steps<C>,
    turns: &mut Steps<L>,
) -> Result<(), NoMemory> {
    let (level, count) = steps_of(rest)?;
    for _ in 0..count {
        if !is_of_two(pool) {
            return Err(AllocError);
        }
        pool.turn(Level(level), copies, turns)?;
    }
    Ok(())
}

/// Lets what a line offers arrive.
fn arrive<C: Ledger>(
    alloc: Global,
    policy: &Policy,
    word: &str,
    rest: &str,
    pool: &mut Pool<Browser>,
    copies: &mut Steps<C>,
) -> Result<(), NoMemory> {
    if !is_of_two(pool) {
        return Err(AllocError);
    }
    let Some(input) = input_of(alloc, policy, rest)? else {
        return Err(AllocError);
    };
    let offers = offers_of(alloc, policy, word, &input)?;
    pool.arrive(&offers, copies)
}

/// Does what a line says.
fn follow<C: Ledger, L: Ledger>(
    alloc: Global,
    policy: &Policy,
    line: &str,
    pools: &mut Pools,
    copies: &mut Steps<C>,
    turns: &mut Steps<L>,
) -> Result<(), NoMemory> {
    let (word, rest) = line.split_once(' ').unwrap_or((line, ""));
    match word {
        "fork" => pools.kept = pools.pool.fork(copies)?,
        "swap" => mem::swap(&mut pools.pool, &mut pools.kept),
        "turn" => make_steps(rest, &mut pools.pool, copies, turns)?,
        "drain" => pools.pool.drain(slice_of(rest)?, copies, turns)?,
        _ => arrive(alloc, policy, word, rest, &mut pools.pool, copies)?,
    }
    Ok(())
}

/// Does what each line says, and tells the classes after each.
fn follow_all<C: Ledger, L: Ledger>(
    alloc: Global,
    policy: &Policy,
    lines: &[String],
    pools: &mut Pools,
    copies: &mut Steps<C>,
    turns: &mut Steps<L>,
) -> Result<Vec<Classes>, NoMemory> {
    let mut told = Vec::new(alloc);
    for line in lines {
        follow(alloc, policy, line.as_str(), pools, copies, turns)?;
        told.push(classes(&pools.pool))?;
    }
    Ok(told)
}

/// The input of a line that offers one.
fn input_in(alloc: Global, policy: &Policy, line: &str) -> Result<Option<Input>, NoMemory>
    ensures { IfOk result (λ input. IfSome input (IsInputOf policy.now.order)) }
{
    let (word, rest) = line.split_once(' ').unwrap_or((line, ""));
    match word {
        "fork" | "swap" | "turn" | "drain" => Ok(None),
        _ => input_of(alloc, policy, rest),
    }
}

/// The lines with the inputs that they offer, which the events of a pool borrow.
fn lines_of<'a>(
    alloc: Global,
    policy: &Policy,
    lines: &'a [String],
) -> Result<Vec<Line<'a>>, NoMemory>
    ensures { IfOk result (λ lines. All (IsLineOf policy.now.order) lines.items) }
{
    let mut read = Vec::new(alloc);
    for line in lines {
        let text = line.as_str();
        let input = input_in(alloc, policy, text)?;
        read.push(Line { text, input })?;
    }
    Ok(read)
}

/// Puts the events of a line behind the others. A fork is none.
fn add_events<'a>(
    alloc: Global,
    policy: &Policy,
    line: &'a Line<'_>,
    events: &mut Vec<Event<'a>>,
) -> Result<(), NoMemory>
    requires line { IsLineOf policy.now.order line.now }
    requires events { All (IsEvent 2) events.old.items }
    ensures { OnOk result (All (IsEvent 2) events.new.items) }
{
    let (word, rest) = line.text.split_once(' ').unwrap_or((line.text, ""));
    match word {
        "fork" | "swap" => Ok(()),
        "turn" => {
            let (level, count) = steps_of(rest)?;
            add_turns(level, count, events)
        }
        "drain" => {
            let count = slice_of(rest)?;
            add_turns(0, count, events)?;
            add_turns(1, count, events)
        }
        _ => match &line.input {
            Some(input) => {
                let offers = offers_of(alloc, policy, word, input)?;
                events.push(Event::Arrive(offers))?;
                Ok(())
            }
            None => Err(AllocError),
        },
    }
}

/// Puts so many steps of a level behind the other events.
fn add_turns(level: u8, count: u32, events: &mut Vec<Event<'_>>) -> Result<(), NoMemory>
    requires level { level < 2 }
    requires events { All (IsEvent 2) events.old.items }
    ensures { OnOk result (All (IsEvent 2) events.new.items) }
{
    for _ in 0..count {
        events.push(Event::Turn(Level(level)))?;
    }
    Ok(())
}

/// The events of all lines.
fn events_of<'a>(
    alloc: Global,
    policy: &Policy,
    lines: &'a [Line<'_>],
) -> Result<Vec<Event<'a>>, NoMemory>
    requires { All (IsLineOf policy.now.order) lines.now }
    ensures { IfOk result (λ events. All (IsEvent 2) events.items) }
{
    let mut events = Vec::new(alloc);
    for line in lines {
        add_events(alloc, policy, line, &mut events)?;
    }
    Ok(events)
}

/// The lines of all that a level's copy has put.
fn put_by(
    alloc: Global,
    policy: &Policy,
    pool: &mut Pool<Browser>,
    l: u8,
) -> Result<Vec<u8>, NoMemory>
    requires { l < 2 }
{
    let mut text = Vec::new(alloc);
    if !is_of_two(pool) || policy.lattice().size() != 2 {
        return Err(AllocError);
    }
    for out in pool.take(Level(l))? {
        print_out(Level(l), policy.lattice(), &out, &mut text)?;
    }
    Ok(text)
}

/// What is told of a pool in the end.
fn end_of(alloc: Global, policy: &Policy, pool: &mut Pool<Browser>) -> Result<Ending, NoMemory> {
    let classes = classes(pool);
    Ok(Ending {
        low: put_by(alloc, policy, pool, 0)?,
        high: put_by(alloc, policy, pool, 1)?,
        left: put_by(alloc, policy, pool, 1)?,
        classes,
    })
}

/// What is told of a new pool in the end, where all that the lines say comes in one call.
fn play<C: Ledger, L: Ledger>(
    alloc: Global,
    policy: &Policy,
    lines: &[String],
    copies: &mut Steps<C>,
    turns: &mut Steps<L>,
) -> Result<Ending, NoMemory> {
    let lines = lines_of(alloc, policy, lines)?;
    let events = events_of(alloc, policy, &lines)?;
    let mut pool = Pool::<Browser>::new(alloc, 2, policy.fuel())?;
    play_all(&events, &mut pool, copies, turns)?;
    end_of(alloc, policy, &mut pool)
}

/// Lets a pool of two levels play all events.
fn play_all<C: Ledger, L: Ledger>(
    events: &[Event<'_>],
    pool: &mut Pool<Browser>,
    copies: &mut Steps<C>,
    turns: &mut Steps<L>,
) -> Result<(), NoMemory>
    requires { All (IsEvent 2) events.now }
{
    if !is_of_two(pool) {
        return Err(AllocError);
    }
    pool.play(events, copies, turns)
}

/// What is told of a story that goes on in these pools.
fn told_of<C: Ledger, L: Ledger>(
    alloc: Global,
    policy: &Policy,
    lines: &[String],
    pools: &mut Pools,
    copies: &mut Steps<C>,
    turns: &mut Steps<L>,
) -> Result<Told, NoMemory> {
    let classes = follow_all(alloc, policy, lines, pools, copies, turns)?;
    Ok(Told {
        lines: classes,
        pool: end_of(alloc, policy, &mut pools.pool)?,
        fork: end_of(alloc, policy, &mut pools.kept)?,
        played: play(alloc, policy, lines, copies, turns)?,
    })
}

/// Tells a story.
fn tell<C: Ledger, L: Ledger>(
    alloc: Global,
    lines: &[String],
    copies: Blank,
    turns: Blank,
) -> Result<Told, NoMemory>
    requires copies_name { copies.name ≡ C.name }
    requires copies_parts { copies.parts ≡ C.parts }
    requires copies_some { 0 < copies.parts }
    requires turns_name { turns.name ≡ L.name }
    requires turns_parts { turns.parts ≡ L.parts }
    requires turns_some { 0 < turns.parts }
{
    let mut copies = Steps::<C>::new(copies);
    let mut turns = Steps::<L>::new(turns);
    let policy = Policy::builtin(alloc)?;
    let mut pools = new_pools(alloc, policy.fuel())?;
    told_of(alloc, &policy, lines, &mut pools, &mut copies, &mut turns)
}

/// Prints what is told of a pool in the end, below a heading.
fn show_ending(rt: &HostRuntime, heading: &str, ending: &Ending) -> io::Result<()> {
    println!(rt; "{heading}:")?;
    show_classes(rt, &ending.classes)?;
    for text in [ending.low.as_slice(), ending.high.as_slice()] {
        match str::from_utf8(text) {
            Ok(text) => print!(rt; "{text}")?,
            Err(_) => println!(rt; "no text")?,
        }
    }
    println!(rt; "left {}", ending.left.len())
}

/// Prints a story.
pub fn show(rt: &HostRuntime, lines: &[String]) -> io::Result<()> {
    let told = tell::<Brand, Brand>(rt.alloc(), lines, Blank::new(1), Blank::new(1));
    let Ok(told) = told else {
        return println!(rt; "no memory");
    };
    for (line, classes) in lines.iter().zip(told.lines.iter()) {
        print!(rt; "{line}: ")?;
        show_classes(rt, classes)?;
    }
    show_ending(rt, "the pool", &told.pool)?;
    show_ending(rt, "the kept one", &told.fork)?;
    show_ending(rt, "in one call", &told.played)
}
