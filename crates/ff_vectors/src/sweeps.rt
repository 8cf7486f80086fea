//! A case as it stands, without its attack, over an outside each of whose calls fails in turn, and
//! over a trace that is cut at each place.
use crate::case::{Case, Part};
use crate::ended::Ended;
use crate::ending::end;
use crate::texts::{count_lines, lines_of, without_last_line};
use anyhow::Result;
use std::alloc::{AllocError, Global};

/// How the case ends over its whole trace.
fn ended(alloc: Global, case: &Case) -> Result<Ended, AllocError> {
    end(alloc, case, case.trace.as_slice())
}

/// Prints how the case ends.
pub fn show(rt: &HostRuntime, case: &Case) -> Result<()> {
    ended(rt.alloc(), case)?.show(rt, case.words.as_slice())?;
    Ok(())
}

/// Prints how the case ends, with the last of its lines alone.
pub fn show_last(rt: &HostRuntime, case: &Case, most: usize) -> Result<()> {
    ended(rt.alloc(), case)?.show_last(rt, case.words.as_slice(), most)?;
    Ok(())
}

/// Prints how the case ends, and whether it ends so once more.
pub fn show_twice(rt: &HostRuntime, case: &Case) -> Result<()> {
    let first = ended(rt.alloc(), case)?;
    first.show(rt, case.words.as_slice())?;
    let again = ended(rt.alloc(), case)?.is(&first);
    println!(rt; "once more the same: {again}")?;
    Ok(())
}

/// Prints how the case ends, with the last of its lines alone, and whether the lines of a level are
/// the same without the attack.
pub fn show_beside(rt: &HostRuntime, case: &Case, level: &str, most: usize) -> Result<()> {
    let run = ended(rt.alloc(), case)?;
    run.show_last(rt, case.words.as_slice(), most)?;
    let calm = end(rt.alloc(), case, case.calm.as_slice())?;
    let lines = lines_of(rt.alloc(), run.put.as_slice(), level)?;
    let others = lines_of(rt.alloc(), calm.put.as_slice(), level)?;
    show_lines_of(rt, level, lines.as_slice(), others.as_slice())
}

/// Prints how many lines a level has, and how many others without the attack.
fn show_lines_of(rt: &HostRuntime, level: &str, lines: &[u8], others: &[u8]) -> Result<()> {
    println!(rt;
        "lines of {level}: {}, and {} without the attack; the same: {}",
        count_lines(lines),
        count_lines(others),
        lines == others
    )?;
    Ok(())
}

/// How the case ends where one more call fails.
fn failing(alloc: Global, case: &mut Case, part: Part, number: u64) -> Result<Ended, AllocError> {
    case.fail(part, number)?;
    let run = ended(alloc, case)?;
    case.mend(part);
    Ok(run)
}

/// The most calls of which each is made to fail.
const MOST_CALLS: u64 = 4096;

/// How many calls of a part a case makes, and after how many of their faults it ends as it should.
#[derive(Clone, Copy)]
struct Sweep {
    calls: u64,
    right: u64,
}

/// Makes each call of a part fail in turn, until one that the case doesn't make.
fn make_fail(alloc: Global, case: &mut Case, part: Part) -> Result<Sweep, AllocError> {
    let whole = ended(alloc, case)?;
    let mut sweep = Sweep { calls: 0, right: 0 };
    for number in 1..MOST_CALLS {
        let run = failing(alloc, case, part, number)?;
        if run.is(&whole) {
            return Ok(sweep);
        }
        sweep.calls = sweep.calls.saturating_add(1);
        if run.is_right(&whole, part) {
            sweep.right = sweep.right.saturating_add(1);
        }
    }
    Ok(sweep)
}

/// Prints how many calls of a part the case makes, by the word for them, and after how many of
/// their faults it ends as it should: with that fault, and with what is then to stand written.
pub fn show_each(
    rt: &HostRuntime,
    case: &mut Case,
    part: Part,
    calls: &str,
    written: &str,
) -> Result<()> {
    let sweep = make_fail(rt.alloc(), case, part)?;
    println!(rt;
        "{:?}: {} {calls}, each failing in turn: {} with {written}",
        case.words, sweep.calls, sweep.right
    )?;
    Ok(())
}

/// Prints whether the case ends in the same way, but for a shorter front of its report, where each
/// write of the report fails in turn. There has to be one.
pub fn show_each_report(rt: &HostRuntime, case: &mut Case) -> Result<()> {
    let sweep = make_fail(rt.alloc(), case, Part::Report)?;
    println!(rt;
        "{:?}: each write of the report failing in turn: a shorter report, all else the same: {}",
        case.words,
        0 < sweep.calls && sweep.calls == sweep.right
    )?;
    Ok(())
}

/// How many cuts end done and with a bad line, and of how many the text is exactly the one owed.
#[derive(Clone, Copy)]
struct Cuts {
    done: u64,
    bad: u64,
    owed: u64,
}

/// Prints how the case ends where the trace is cut after each of its bytes. Owed is, where the cut
/// line is bad, the text of the lines before it, and else that of all lines, the cut one included.
pub fn show_each_cut(rt: &HostRuntime, case: &Case) -> Result<()> {
    let mut cuts = Cuts {
        done: 0,
        bad: 0,
        owed: 0,
    };
    for length in 0..=case.trace.len() {
        cut(rt.alloc(), case, length, &mut cuts)?;
    }
    println!(rt;
        "cut after each byte: {} done, {} with a bad line, {} with the text owed",
        cuts.done, cuts.bad, cuts.owed
    )?;
    Ok(())
}

/// Counts how the case ends where the trace is cut after so many bytes.
fn cut(alloc: Global, case: &Case, length: usize, cuts: &mut Cuts) -> Result<(), AllocError> {
    let Some((front, _rest)) = case.trace.as_slice().split_at_checked(length) else {
        return Ok(());
    };
    let run = end(alloc, case, front)?;
    let mut lines = Vec::from_slice(alloc, front)?;
    let lines = match run.number {
        0 => {
            cuts.done = cuts.done.saturating_add(1);
            lines.push(b'\n')?;
            lines.as_slice()
        }
        4 => {
            cuts.bad = cuts.bad.saturating_add(1);
            without_last_line(front)
        }
        _ => return Ok(()),
    };
    let owed = end(alloc, case, lines)?;
    if owed.number == 0 && owed.put.as_slice() == run.put.as_slice() {
        cuts.owed = cuts.owed.saturating_add(1);
    }
    Ok(())
}
