//! The lines, one after another.
ghost use Rattle.std.specs.Prelude.{◌≡◌, ◌<◌};
ghost use Rattle.ff_stores_table.specs.Counted.{AreCounted};

use crate::queues::Queues;
use crate::reading::{parted, range};
use crate::restoring::Records;
use crate::stores::{Case, Stores};
use crate::{cookies, queues, records, requests, restoring, variables, windows};
use anyhow::{Result, bail};
use ff_contract::Steps;
use std::alloc::Global;
use std::sync::ledger::{Blank, Ledger};

/// Prints each line, and what its call answered.
pub fn run<C: Ledger>(rt: &HostRuntime, blank: Blank) -> Result<()>
    requires name { blank.name ≡ C.name }
    requires parts { blank.parts ≡ C.parts }
    requires some { 0 < blank.parts }
{
    let mut copies = Steps::<C>::new(blank);
    let mut case = Case::new(rt.alloc());
    let mut queues = Queues::new(rt.alloc());
    follow_all(rt, &mut case, &mut queues, &mut copies)
}

/// Follows each line. The case and the queues are lent, so that the proof drops them at no way out
/// of the loop.
fn follow_all<C: Ledger>(
    rt: &HostRuntime,
    case: &mut Case,
    queues: &mut Queues,
    copies: &mut Steps<C>,
) -> Result<()>
    requires { AreCounted queues.old }
{
    for line in rt.lines(rt.alloc()) {
        let line = line?;
        println!(rt; "{line}")?;
        let (word, rest) = parted(line.as_str());
        let answer = match word {
            "##" => continue,
            "#" => {
                *case = Case::new(rt.alloc());
                *queues = Queues::new(rt.alloc());
                continue;
            }
            "queue" => queues::take(rt.alloc(), queues, rest, copies)?,
            _ => follow(rt.alloc(), case, line.as_str(), copies)?,
        };
        println!(rt; "  {answer}")?;
    }
    Ok(())
}

/// What a line gives that may be about both the stores and their fork.
fn follow<C: Ledger>(
    alloc: Global,
    case: &mut Case,
    line: &str,
    copies: &mut Steps<C>,
) -> Result<String> {
    let (word, rest) = parted(line);
    match word {
        "fork" => case.keep(alloc, copies)?,
        "swap" => case.swap(),
        "each" => return each(alloc, &mut case.stores, rest, copies),
        _ => return take(alloc, &mut case.stores, line, copies),
    }
    Ok(format!(in alloc; "done")?)
}

/// What the last of the lines gives that a line stands for.
fn each<C: Ledger>(
    alloc: Global,
    stores: &mut Stores,
    rest: &str,
    copies: &mut Steps<C>,
) -> Result<String> {
    let (outer, rest) = parted(rest);
    let (inner, line) = parted(rest);
    let (first, last) = range(outer)?;
    let (from, to) = range(inner)?;
    let mut answer = String::new(alloc);
    for n in first..=last {
        for k in from..=to {
            let line = numbered(alloc, line, n, k)?;
            answer = take(alloc, stores, line.as_str(), copies)?;
        }
    }
    Ok(answer)
}

/// A line with numbers in the places of its marks.
fn numbered(alloc: Global, line: &str, n: u32, k: u32) -> Result<String> {
    let n = format!(in alloc; "{n}")?;
    let k = format!(in alloc; "{k}")?;
    let line = line.replace(alloc, '%', n.as_str())?;
    Ok(line.as_str().replace(alloc, '&', k.as_str())?)
}

/// What a line gives that is about one of the stores.
fn take<C: Ledger>(
    alloc: Global,
    stores: &mut Stores,
    line: &str,
    copies: &mut Steps<C>,
) -> Result<String> {
    let (word, rest) = parted(line);
    match word {
        "cookie" => cookies::take(alloc, &mut stores.jar, rest, copies),
        "request" => requests::take(alloc, &mut stores.requests, rest, copies),
        "window" => windows::take(alloc, &mut stores.windows, rest, copies),
        "variable" => variables::take(alloc, &mut stores.windows, rest, copies),
        "record" => restoring::take(alloc, stores, rest, copies),
        "copy" => records::take(alloc, rest),
        _ => bail!("no line of the table: {word}"),
    }
}
