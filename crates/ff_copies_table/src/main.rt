//! Prints what a browser by itself and its fork do. Then, for each trace of its input, which a
//! heading begins, how many turns each of its inputs takes; or, where the heading says so, the
//! story of a pool of two levels that its lines tell, which pools are made of the classes that they
//! name, or what an audit of it finds.
//!
//! Floor: beside. Nothing of the browser stands on it.
#![tactic(auto)]

mod alone;
mod auditing;
mod counting;
mod restoring;
mod story;

ghost use Rattle.std.specs.Prelude.{◌≡◌, false};
ghost use Rattle.std.specs.Bool.{OnTrue};
ghost use Rattle.ff_pool.specs.Pooled.{size};

use ff_core::Browser;
use ff_name::Level;
use ff_pool::Pool;
use std::io;
use std::marker::Brand;
use std::sync::ledger::Blank;

/// Whether the pool isn't spent and has two levels.
fn is_of_two(pool: &Pool<Browser>) -> bool
    ensures unspent { OnTrue result (pool.now.spent ≡ false) }
    ensures levels { OnTrue result (size pool.now ≡ 2) }
{
    !pool.spent() && pool.size() == 2
}

/// How many levels are in the class of each level, and whether each is quiet.
type Classes = Option<(u32, u32, bool, bool)>;

fn classes(pool: &Pool<Browser>) -> Classes {
    if !is_of_two(pool) {
        return None;
    }
    Some((
        pool.members(Level(0)).len(),
        pool.members(Level(1)).len(),
        pool.quiet(Level(0)),
        pool.quiet(Level(1)),
    ))
}

/// Prints what is told at one moment.
fn show_classes(rt: &HostRuntime, classes: &Classes) -> io::Result<()> {
    match classes {
        Some((low, high, low_quiet, high_quiet)) => {
            println!(rt; "classes of {low} {high}, quiet {low_quiet} {high_quiet}")
        }
        None => println!(rt; "spent"),
    }
}

/// Prints a heading, and the story that the lines tell, the pools of their classes, what is found
/// of them, or how many turns their inputs take.
fn show_lines(rt: &HostRuntime, heading: &str, lines: &[String]) -> io::Result<()> {
    if lines.is_empty() {
        return Ok(());
    }
    match heading.split_once(": ") {
        Some(("Story", title)) => {
            println!(rt; "{title}")?;
            story::show(rt, lines)
        }
        Some(("Classes", title)) => {
            println!(rt; "{title}")?;
            restoring::show(rt, lines)
        }
        Some(("Audit", title)) => {
            println!(rt; "{title}")?;
            auditing::show(rt, lines)
        }
        _ => show_turns(rt, heading, lines),
    }
}

/// Prints a heading, and how many turns the inputs of the lines take.
fn show_turns(rt: &HostRuntime, heading: &str, lines: &[String]) -> io::Result<()> {
    let counts = counting::count::<Brand, Brand>(rt.alloc(), lines, Blank::new(1), Blank::new(1));
    let Ok(counts) = counts else {
        return println!(rt; "no memory");
    };
    let mut all = 0_u32;
    for count in counts.iter() {
        all = all.saturating_add(*count);
    }
    println!(rt; "{heading}: turns {:?}, in all {all}", counts.as_slice())
}

/// Prints how many turns the traces of the input take.
fn show_traces(rt: &HostRuntime) -> io::Result<()> {
    let mut heading = String::new(rt.alloc());
    let mut lines = Vec::new(rt.alloc());
    for line in rt.lines(rt.alloc()) {
        let line = line?;
        match line.as_str().split_once(' ') {
            Some(("##", title)) => {
                show_lines(rt, heading.as_str(), lines.as_slice())?;
                heading = String::from_str(rt.alloc(), title)?;
                lines = Vec::new(rt.alloc());
            }
            _ => lines.push(line)?,
        }
    }
    show_lines(rt, heading.as_str(), lines.as_slice())
}

fn main(rt: HostRuntime) -> io::Result<()> {
    alone::show(&rt)?;
    show_traces(&rt)
}
