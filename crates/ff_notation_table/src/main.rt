//! Prints what the crates of the notation answer, a part after each heading of the input, which
//! begins with `== `. Each value that is read or made is compared with its copy, and the table ends
//! with an error where the two aren't equal.
//!
//! Floor: beside. Nothing of the browser stands on it.
//!
//! | Heading | What is printed |
//! |---|---|
//! | `calls` | each line, and below it what a call of the notation makes of it |
//! | `values` | pages, cookies and outputs, and error lines of which a write fails |
//! | `syntax` | for each line what its item stands for, printed again, or its first fault |
//!
//! A line of `calls` is the word of a call, a blank, and what the call is given, in which `%HH`
//! stands for the byte of that value. One that begins with `#` is a heading.
#![tactic(auto)]

mod calls;
mod forms;
mod items;
mod lines;
mod reports;
mod sent;
mod shown;
mod spelling;
mod syntax;

use anyhow::{Result, bail};
use std::alloc::Global;

/// What the lines below a heading are.
#[derive(Clone, Copy)]
enum Part {
    Calls,
    Syntax,
}

fn main(rt: HostRuntime) -> Result<()> {
    let mut part = Part::Calls;
    for line in rt.lines(rt.alloc()) {
        let line = line?;
        match line.as_str().strip_prefix("== ") {
            Some(heading) => {
                println!(rt; "== {heading}")?;
                part = begin(&rt, part, heading)?;
            }
            None => show(&rt, rt.alloc(), part, line.as_str())?,
        }
    }
    Ok(())
}

/// The part that a heading begins, where lines follow, or what is printed below it.
fn begin(rt: &HostRuntime, part: Part, heading: &str) -> Result<Part> {
    match heading {
        "calls" => Ok(Part::Calls),
        "syntax" => Ok(Part::Syntax),
        "values" => {
            shown::show(rt, rt.alloc())?;
            sent::show(rt, rt.alloc())?;
            reports::show(rt, rt.alloc())?;
            Ok(part)
        }
        _ => bail!("no heading: {heading}"),
    }
}

/// Prints what a line of a part asks for.
fn show<R: Print>(rt: &R, alloc: Global, part: Part, line: &str) -> Result<()> {
    match part {
        Part::Calls => show_call(rt, alloc, line),
        Part::Syntax => {
            let answer = syntax::answer(alloc, line)?;
            println!(rt; "{answer}")?;
            Ok(())
        }
    }
}

/// Prints a line, and below it what its call answers.
fn show_call<R: Print>(rt: &R, alloc: Global, line: &str) -> Result<()> {
    println!(rt; "{line}")?;
    if line.starts_with('#') {
        return Ok(());
    }
    let answer = calls::answer(alloc, line)?;
    for part in answer.as_str().lines() {
        println!(rt; "  {part}")?;
    }
    Ok(())
}
