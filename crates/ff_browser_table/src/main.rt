//! Prints what the crates of one browser answer: each line of the input, and what comes of it. A
//! heading begins with `== `, and says which lines follow:
//!
//! Floor: beside. Nothing of the browser stands on it.
//!
//! | Heading | A line is |
//! |---|---|
//! | `frames` | an expression whose reductions are printed one by one |
//! | `trees` | a change of node trees, or what is read off them |
//! | `scripts` | a script that runs over the stores of a browser |
#![tactic(auto)]

ghost use Rattle.std.specs.Prelude.{◌≡◌, ◌<◌};

mod answers;
mod calls;
mod frames;
mod redexes;
mod running;
mod scripts;
mod setting;
mod shown;
mod tasks;
mod tree_changes;
mod tree_shown;
mod tree_words;
mod trees;

use crate::scripts::Scripts;
use crate::trees::Trees;
use anyhow::{Result, bail};
use ff_contract::Steps;
use std::marker::Brand;
use std::sync::ledger::{Blank, Ledger};

/// What the lines below a heading are.
#[derive(Clone, Copy)]
enum Part {
    Frames,
    Trees,
    Scripts,
}

/// What the lines of two parts leave.
#[derive(Drop)]
struct Left {
    trees: Trees,
    scripts: Scripts,
}

fn main(rt: HostRuntime) -> Result<()> {
    run::<Brand>(&rt, Blank::new(1))
}

/// Prints each line and what comes of it.
fn run<C: Ledger>(rt: &HostRuntime, blank: Blank) -> Result<()>
    requires name { blank.name ≡ C.name }
    requires parts { blank.parts ≡ C.parts }
    requires some { 0 < blank.parts }
{
    let mut copies = Steps::<C>::new(blank);
    let mut left = Left {
        trees: Trees::new(rt.alloc()),
        scripts: Scripts::new(rt.alloc()),
    };
    follow_all(rt, &mut left, &mut copies)
}

/// Prints each line and what comes of it. What the lines leave is lent, so that the proof drops it
/// at no way out of the loop.
fn follow_all<C: Ledger>(rt: &HostRuntime, left: &mut Left, copies: &mut Steps<C>) -> Result<()> {
    let mut part = Part::Frames;
    for line in rt.lines(rt.alloc()) {
        part = take(rt, left, part, line?.as_str(), copies)?;
    }
    Ok(())
}

/// Prints a line and what comes of it; gives the part of the line after it.
fn take<C: Ledger>(
    rt: &HostRuntime,
    left: &mut Left,
    part: Part,
    line: &str,
    copies: &mut Steps<C>,
) -> Result<Part> {
    match line.strip_prefix("== ") {
        Some(heading) => {
            println!(rt; "== {heading}")?;
            part_of(heading)
        }
        None => {
            follow(rt, left, part, line, copies)?;
            Ok(part)
        }
    }
}

/// The part that a heading begins.
fn part_of(heading: &str) -> Result<Part> {
    match heading {
        "frames" => Ok(Part::Frames),
        "trees" => Ok(Part::Trees),
        "scripts" => Ok(Part::Scripts),
        _ => bail!("no heading: {heading}"),
    }
}

/// Prints a line of a part and what comes of it.
fn follow<C: Ledger>(
    rt: &HostRuntime,
    left: &mut Left,
    part: Part,
    line: &str,
    copies: &mut Steps<C>,
) -> Result<()> {
    match part {
        Part::Frames => frames::show(rt, rt.alloc(), line),
        Part::Trees => {
            println!(rt; "{line}")?;
            trees::follow(rt, &mut left.trees, line, copies)
        }
        Part::Scripts => {
            println!(rt; "{line}")?;
            scripts::follow(rt, rt.alloc(), &mut left.scripts, line, copies)
        }
    }
}
