//! Prints what the crates of words and of who may know answer, a part after each heading of the
//! input, which begins with `== `:
//!
//! Floor: beside. Nothing of the browser stands on it.
//!
//! | Heading | What is printed |
//! |---|---|
//! | `words` | for each line how a text is read as an address, a name, a domain or a number |
//! | `values` | shared values, operators' words, the values of scripts, offers, kinds and faults |
//! | `operators` | for each line what a pure operator gives |
//! | `policies` | for each line the policy that it is, printed, or its first fault |
//! | `lattices` | for each line whether its levels and pairs are a lattice |
//! | `levels` | lattices, sets of levels, policies at their limits, and who sees which input |
//! | `statuses` | the number and the error line of each way in which a run may end |
#![tactic(auto)]

mod lattices;
mod operations;
mod operator_words;
mod policies;
mod policy_texts;
mod routes;
mod shared;
mod spelling;
mod statuses;
mod texts;
mod values;

use anyhow::{Result, bail};
use std::alloc::Global;

/// What the lines below a heading are.
#[derive(Clone, Copy)]
enum Part {
    Words,
    Operators,
    Policies,
    Lattices,
}

fn main(rt: HostRuntime) -> Result<()> {
    let mut part = Part::Words;
    for line in rt.lines(rt.alloc()) {
        let line = line?;
        match line.as_str().strip_prefix("== ") {
            Some(heading) => {
                println!(rt; "== {heading}")?;
                part = begin(&rt, part, heading)?;
            }
            None => {
                let answer = answer(rt.alloc(), part, line.as_str())?;
                println!(rt; "{answer}")?;
            }
        }
    }
    Ok(())
}

/// The part that a heading begins, where lines follow, or what is printed below it.
fn begin(rt: &HostRuntime, part: Part, heading: &str) -> Result<Part> {
    match heading {
        "words" => Ok(Part::Words),
        "operators" => Ok(Part::Operators),
        "policies" => Ok(Part::Policies),
        "lattices" => Ok(Part::Lattices),
        _ => {
            show(rt, heading)?;
            Ok(part)
        }
    }
}

/// Prints what stands below a heading without lines.
fn show(rt: &HostRuntime, heading: &str) -> Result<()> {
    match heading {
        "values" => {
            texts::show_bytes(rt)?;
            shared::show(rt)?;
            operator_words::show(rt)?;
            values::show(rt)?;
        }
        "levels" => {
            lattices::show(rt)?;
            policies::show(rt)?;
            routes::show(rt)?;
        }
        "statuses" => statuses::show_all(rt)?,
        _ => bail!("no heading: {heading}"),
    }
    Ok(())
}

/// What is printed for a line of a part.
fn answer(alloc: Global, part: Part, line: &str) -> Result<String> {
    match part {
        Part::Words => texts::answer(alloc, line),
        Part::Operators => operations::answer(alloc, line),
        Part::Policies => policy_texts::answer(alloc, line.as_bytes()),
        Part::Lattices => lattices::answer(alloc, line),
    }
}
