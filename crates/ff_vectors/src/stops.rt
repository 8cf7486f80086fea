//! A resumed run that stops after each line of its trace, is saved there, and goes on.
use crate::case::Case;
use crate::ended::Ended;
use crate::ending::end;
use crate::texts::{is_stop, parts_of};
use anyhow::Result;
use std::alloc::{AllocError, Global};

/// How many stops there are, and after how many of them the case goes on as it should.
#[derive(Clone, Copy)]
struct Stops {
    all: u64,
    right: u64,
}

/// Prints at how many places the case can stop, before its trace and after each line of it, and at
/// how many of them it goes on as the unbroken run. Its words begin with new copies.
pub fn show_each_stop(rt: &HostRuntime, case: &mut Case) -> Result<()> {
    let whole = end(rt.alloc(), case, case.trace.as_slice())?;
    let mut stops = Stops { all: 0, right: 0 };
    for length in 0..=case.trace.len() {
        if is_stop(case.trace.as_slice(), length) {
            stops.all = stops.all.saturating_add(1);
            if goes_on(rt.alloc(), case, length, &whole)? {
                stops.right = stops.right.saturating_add(1);
            }
        }
    }
    println!(rt;
        "{:?}: {}, {} stops: {} go on as the unbroken run",
        case.words, whole.number, stops.all, stops.right
    )?;
    Ok(())
}

/// Whether the lines up to a stop and those of the run that goes on from what was saved there,
/// joined, are what the unbroken run puts, which ends in the same way.
fn goes_on(
    alloc: Global,
    case: &mut Case,
    length: usize,
    whole: &Ended,
) -> Result<bool, AllocError> {
    let Some((front, rest)) = case.trace.as_slice().split_at_checked(length) else {
        return Ok(false);
    };
    let rest = Vec::from_slice(alloc, rest)?;
    let first = end(alloc, case, front)?;
    let (mut text, saved) = parts_of(alloc, first.put.as_slice())?;
    case.go_on_from(alloc, saved.as_slice())?;
    let second = end(alloc, case, rest.as_slice())?;
    case.begin_anew(alloc)?;
    text.extend_from_slice(second.put.as_slice())?;
    Ok(second.number == whole.number && text.as_slice() == whole.put.as_slice())
}
