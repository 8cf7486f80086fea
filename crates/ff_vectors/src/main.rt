//! Obeys the cases of the input, over a port, a shelf and a sink in memory, and prints how each
//! ends: the status, what was put and what was reported. The input has one line for each thing that
//! is said of a case, so anyone can add one.
//!
//! Floor: beside. Nothing of the browser stands on it.
//!
//! | Line | What it says |
//! |---|---|
//! | `# TEXT` | a heading, which begins a new case |
//! | `words W W ..` | the words, with one blank between two; `EMPTY` is the empty word |
//! | `file BYTES` | what the file `p.json` holds |
//! | `fill N` | that file is filled with blanks at its end up to N bytes |
//! | `rule LINE` | the next line of the file `r.rules` |
//! | `rules N LINE` | that line of it, N times |
//! | `fill-rules N` | that file is filled with blanks at its end up to N bytes |
//! | `state LINE` | the next line of the file `s.saved`; there is no further file |
//! | `in LINE` | the next line of the trace |
//! | `only LINE` | the same, but of the attack: the trace without the attack lacks it |
//! | `times N LINE` | that line of the trace, N times |
//! | `end LINE` | the last line of the trace, without a newline |
//! | `grain N` | the trace comes in pieces of N bytes, a write takes at most N; else 65,536 |
//! | `read N`, `write N` | the N-th read, or write, from 1, fails |
//! | `fetch N` | the N-th fetch of a file fails |
//! | `report N` | the N-th write of the error sink fails |
//! | `run` | how the case ends |
//! | `last N` | the same, with the number of lines put and the last N of them |
//! | `beside L N` | as by `last N`, and whether level L has the same lines without the attack |
//! | `twice` | as by `run`, and whether it ends so once more |
//! | `each read`, `each write` | how it ends where each of its reads, or writes, fails in turn |
//! | `each fetch` | the same for its fetches of files |
//! | `each report` | whether all else stays where each write of its report fails in turn |
//! | `each cut` | how it ends where the trace is cut after each of its bytes |
//! | `each stop` | whether it is the unbroken run where it stops after each line and goes on |
//!
//! What is said of a case holds for all that is shown after it, up to the next heading. Blank lines
//! are passed over.
#![tactic(auto)]

mod case;
mod ended;
mod ending;
mod stops;
mod sweeps;
mod texts;

use crate::case::{Case, Part};
use anyhow::{Context, Result};

fn main(rt: HostRuntime) -> Result<()> {
    let mut case = Case::new(rt.alloc());
    take_all(&rt, &mut case)
}

/// Takes each line of the input. The case is lent, so that the proof drops it at no way out of the
/// loop.
fn take_all(rt: &HostRuntime, case: &mut Case) -> Result<()> {
    for line in rt.lines(rt.alloc()) {
        let line = line?;
        if !line.as_str().is_empty() {
            take(rt, case, line.as_str())?;
        }
    }
    Ok(())
}

/// Takes a line of the input.
fn take(rt: &HostRuntime, case: &mut Case, line: &str) -> Result<()> {
    match line {
        "run" => sweeps::show(rt, case),
        "twice" => sweeps::show_twice(rt, case),
        "each read" => sweeps::show_each(rt, case, Part::Read, "reads", "a front of the text"),
        "each write" => sweeps::show_each(
            rt,
            case,
            Part::Write,
            "writes",
            "a shorter front of the text",
        ),
        "each fetch" => sweeps::show_each(rt, case, Part::Fetch, "fetches", "nothing got or put"),
        "each report" => sweeps::show_each_report(rt, case),
        "each cut" => sweeps::show_each_cut(rt, case),
        "each stop" => stops::show_each_stop(rt, case),
        _ => {
            let (sort, text) = line.split_once(' ').context("a sort and a text")?;
            say(rt, case, sort, text)
        }
    }
}

/// Takes a line that has a sort and a text.
fn say(rt: &HostRuntime, case: &mut Case, sort: &str, text: &str) -> Result<()> {
    match sort {
        "last" => sweeps::show_last(rt, case, usize::from(text.parse::<u16>()?)),
        "beside" => show_beside(rt, case, text),
        "#" => {
            println!(rt; "\n## {text}")?;
            case.say(rt.alloc(), sort, text)
        }
        _ => case.say(rt.alloc(), sort, text),
    }
}

/// Takes a level and a number of lines.
fn show_beside(rt: &HostRuntime, case: &Case, text: &str) -> Result<()> {
    let (level, most) = text.split_once(' ').context("a level and a number")?;
    sweeps::show_beside(rt, case, level, usize::from(most.parse::<u16>()?))
}
