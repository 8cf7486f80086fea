//! The reductions of an expression over a store of one variable for each activation, printed one by
//! one.
//!
//! The expression is printed again. A line follows for each of its reductions: how many calls stand
//! around the redex, and the redex, in which values stand for evaluated parts; a redex that no
//! store decides is `local`. Then comes the value. After the tenth reduction a fork is made, and
//! once the expression has its value the fork goes on by itself, in the same way. On a line that
//! begins with `!` stands the body of a function, which is called with the number 6.

use crate::redexes;
use anyhow::Result;
use ff_script::{Script, read_body};
use std::alloc::Global;

/// After how many reductions the fork is made.
const FORKED_AFTER: u32 = 10;

/// The most reductions that are printed.
const MOST_PRINTED: u32 = 200;

/// Prints the expression of a line, its reductions and its value, and those of the fork.
pub fn show<R: Print>(rt: &R, alloc: Global, line: &str) -> Result<()> {
    println!(rt; "{line}")?;
    let mut script = started(alloc, line)?;
    reduce(rt, alloc, &mut script, FORKED_AFTER)?;
    let mut fork = script.fork(alloc)?;
    finish(rt, alloc, &mut script)?;
    println!(rt; "the fork:")?;
    finish(rt, alloc, &mut fork)
}

/// Begins to run the expression of a line, or to call the function whose body stands on it.
fn started(alloc: Global, line: &str) -> Result<Script> {
    match line.strip_prefix("! ") {
        Some(body) => Ok(Script::start_call(alloc, &read_body(alloc, body)?)?),
        None => Ok(Script::start(alloc, &read_body(alloc, line)?)?),
    }
}

/// Prints at most so many reductions.
fn reduce<R: Print>(rt: &R, alloc: Global, script: &mut Script, most: u32) -> Result<()> {
    for _turn in 0..most {
        if script.done().is_some() {
            return Ok(());
        }
        print!(rt; "  {} ", script.depth())?;
        if let Some(redex) = script.next() {
            redexes::redex(rt, redex)?;
        }
        println!(rt; "")?;
        script.turn(alloc)?;
    }
    Ok(())
}

/// Prints the reductions that are left, and the value.
fn finish<R: Print>(rt: &R, alloc: Global, script: &mut Script) -> Result<()> {
    reduce(rt, alloc, script, MOST_PRINTED)?;
    match script.done() {
        Some(value) => {
            print!(rt; "= ")?;
            redexes::value(rt, value)?;
            println!(rt; "")?;
        }
        None => println!(rt; "and more")?,
    }
    Ok(())
}
