//! One browser by itself: it takes inputs, makes their turns, and is forked.
ghost use Rattle.std.specs.Prelude.{◌≡◌, ◌<◌};
ghost use Rattle.ff_value.specs.Spelled.{IsWellSpelledInput};

use ff_contract::Steps;
use ff_core::{Browser, NoMemory, Reactor, Restorable};
use ff_name::Url;
use ff_value::{Act, Input, Out};
use std::alloc::{AllocError, Global};
use std::io;
use std::marker::Brand;
use std::sync::ledger::{Blank, Ledger};

/// More turns than an input of this story takes.
const MOST_TURNS: u32 = 100;

/// The input that opens an empty window.
fn opening() -> Input
    ensures { IsWellSpelledInput result }
{
    Input {
        tag: None,
        act: Act::Opens(Url::Blank),
    }
}

/// Lets a quiet browser take the input and make its turns; answers how many.
fn open<C: Ledger, L: Ledger>(
    browser: &mut Browser,
    outs: &mut Vec<Out>,
    copies: &mut Steps<C>,
    turns: &mut Steps<L>,
) -> Result<u32, NoMemory> {
    if !browser.quiet() {
        return Err(AllocError);
    }
    browser.accept(&opening(), outs, copies)?;
    for made in 0..MOST_TURNS {
        if browser.quiet() {
            return Ok(made);
        }
        browser.turn(outs, copies, turns)?;
    }
    Err(AllocError)
}

/// How many windows are open, of the first four.
fn windows(browser: &Browser) -> usize {
    let mut count = 0;
    for place in 0..4 {
        if browser.stores().windows().at(place).is_some() {
            count += 1;
        }
    }
    count
}

/// The turns of two inputs, the windows of a browser and of its fork, and their outputs.
type Story = (u32, u32, usize, usize, usize, usize);

/// A browser takes an input, and a fork of it one more.
fn story_of<C: Ledger, L: Ledger>(
    alloc: Global,
    browser: &mut Browser,
    copies: &mut Steps<C>,
    turns: &mut Steps<L>,
) -> Result<Story, NoMemory> {
    let mut outs = Vec::new(alloc);
    let mut more = Vec::new(alloc);
    let first = open(browser, &mut outs, copies, turns)?;
    let mut fork = browser.fork(copies)?;
    let second = open(&mut fork, &mut more, copies, turns)?;
    Ok((
        first,
        second,
        windows(browser),
        windows(&fork),
        outs.len(),
        more.len(),
    ))
}

/// The story of a new browser.
fn fork_goes_on<C: Ledger, L: Ledger>(
    alloc: Global,
    copies: Blank,
    turns: Blank,
) -> Result<Story, NoMemory>
    requires copies_name { copies.name ≡ C.name }
    requires copies_parts { copies.parts ≡ C.parts }
    requires copies_some { 0 < copies.parts }
    requires turns_name { turns.name ≡ L.name }
    requires turns_parts { turns.parts ≡ L.parts }
    requires turns_some { 0 < turns.parts }
{
    let mut copies = Steps::<C>::new(copies);
    let mut turns = Steps::<L>::new(turns);
    let mut browser = Browser::new(alloc, 5);
    story_of(alloc, &mut browser, &mut copies, &mut turns)
}

/// Prints the story.
pub fn show(rt: &HostRuntime) -> io::Result<()> {
    let story = fork_goes_on::<Brand, Brand>(rt.alloc(), Blank::new(1), Blank::new(1));
    let Ok((first, second, windows, of_fork, outs, more)) = story else {
        return println!(rt; "no memory");
    };
    println!(rt; "a browser: turns {first}, windows {windows}, outputs {outs}")?;
    println!(rt; "its fork: turns {second}, windows {of_fork}, outputs {more}")
}
