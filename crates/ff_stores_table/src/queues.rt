//! Queues of scripts, in windows of their own. How many entries these may have is counted, so that
//! there is room for one more.
ghost use Rattle.std.specs.Prelude.{◌≡◌, ◌+◌, ◌<◌, ◌≤◌, OnOk};
ghost use Rattle.ff_windows.specs.Queues.{count_entries};
ghost use Rattle.ff_stores_table.specs.Counted.{AreCounted};

use crate::reading::{number, page, parted, text};
use crate::windows::open;
use crate::words::{spelled, yes_or_no};
use anyhow::{Result, bail};
use ff_contract::Steps;
use ff_machine::{MOST_ENTRIES, MOST_SLOTS};
use ff_script::read_body;
use ff_value::{Url, WinId};
use ff_windows::Windows;
use std::alloc::Global;
use std::mem;
use std::sync::ledger::Ledger;

/// Windows, the fork of them that is kept, and a number of entries that neither has more of.
pub struct Queues {
    windows: Windows,
    kept: Windows,
    most: u32,
}

// Written out, so that the proof of a caller sees one call.
impl Drop for Queues {
    fn drop(self) {
        let Queues {
            windows: _windows,
            kept: _kept,
            most: _,
        } = self;
    }
}

impl Queues {
    /// No windows.
    pub fn new(alloc: Global) -> Queues
        ensures { AreCounted result }
    {
        Queues {
            windows: Windows::new(alloc),
            kept: Windows::new(alloc),
            most: 0,
        }
    }
}

/// What a line gives.
pub fn take<C: Ledger>(
    alloc: Global,
    queues: &mut Queues,
    line: &str,
    copies: &mut Steps<C>,
) -> Result<String>
    requires { AreCounted queues.old }
    ensures { OnOk result (AreCounted queues.new) }
{
    let (word, rest) = parted(line);
    match word {
        "fork" => keep(alloc, queues, copies),
        "swap" => swap(alloc, queues),
        _ => count(alloc, queues, word, rest, copies),
    }
}

/// Keeps a fork of the windows.
fn keep<C: Ledger>(alloc: Global, queues: &mut Queues, copies: &mut Steps<C>) -> Result<String>
    requires { AreCounted queues.old }
    ensures { OnOk result (AreCounted queues.new) }
{
    queues.kept = queues.windows.fork(copies)?;
    Ok(format!(in alloc; "done")?)
}

/// Goes on with the fork, and keeps the windows.
fn swap(alloc: Global, queues: &mut Queues) -> Result<String>
    requires { AreCounted queues.old }
    ensures { OnOk result (AreCounted queues.new) }
{
    mem::swap(&mut queues.windows, &mut queues.kept);
    Ok(format!(in alloc; "done")?)
}

/// Makes a change, and counts an entry for it.
fn count<C: Ledger>(
    alloc: Global,
    queues: &mut Queues,
    word: &str,
    rest: &str,
    copies: &mut Steps<C>,
) -> Result<String>
    requires { AreCounted queues.old }
    ensures { OnOk result (AreCounted queues.new) }
{
    if queues.most >= MOST_ENTRIES {
        bail!("too many lines of queues");
    }
    let answer = change(alloc, &mut queues.windows, word, rest, copies)?;
    queues.most += 1;
    Ok(answer)
}

/// What a change of the windows gives.
fn change<C: Ledger>(
    alloc: Global,
    windows: &mut Windows,
    word: &str,
    rest: &str,
    copies: &mut Steps<C>,
) -> Result<String>
    requires { count_entries windows.old < MOST_ENTRIES }
    ensures { OnOk result (count_entries windows.new ≤ count_entries windows.old + 1) }
{
    match word {
        "open" => open_one(alloc, windows, rest, copies),
        "close" => close(alloc, windows, rest, copies),
        "wait" => wait(alloc, windows, rest, copies),
        "push" => push(alloc, windows, rest, copies),
        "fill" => fill(alloc, windows, rest, copies),
        "pop" => pop(alloc, windows, rest, copies),
        _ => ready(alloc, windows, word),
    }
}

fn open_one<C: Ledger>(
    alloc: Global,
    windows: &mut Windows,
    name: &str,
    copies: &mut Steps<C>,
) -> Result<String>
    ensures { OnOk result (count_entries windows.new ≡ count_entries windows.old) }
{
    let name = text(alloc, name)?;
    match open(windows, &name, None, &Url::Blank, copies) {
        Ok(n) => Ok(format!(in alloc; "window {}", n.0)?),
        Err(_) => bail!("no room for a window"),
    }
}

fn close<C: Ledger>(
    alloc: Global,
    windows: &mut Windows,
    rest: &str,
    copies: &mut Steps<C>,
) -> Result<String>
    ensures { OnOk result (count_entries windows.new ≡ count_entries windows.old) }
{
    let was = windows.close(WinId(number(rest)?), copies)?;
    Ok(format!(in alloc; "{}", yes_or_no(was))?)
}

#[tactic(auto, using(crate::proofs::Counted::slot_counted))]
fn wait<C: Ledger>(
    alloc: Global,
    windows: &mut Windows,
    rest: &str,
    copies: &mut Steps<C>,
) -> Result<String>
    requires { count_entries windows.old < MOST_ENTRIES }
    ensures { OnOk result (count_entries windows.new ≡ count_entries windows.old + 1) }
{
    let page = page(windows, rest)?;
    if windows.next_slot(page) >= MOST_SLOTS {
        bail!("no slot");
    }
    let slot = windows.push_wait(page, copies)?;
    Ok(format!(in alloc; "slot {slot}")?)
}

#[tactic(auto, using(crate::proofs::Counted::entry_counted))]
fn push<C: Ledger>(
    alloc: Global,
    windows: &mut Windows,
    rest: &str,
    copies: &mut Steps<C>,
) -> Result<String>
    requires { count_entries windows.old < MOST_ENTRIES }
    ensures { OnOk result (count_entries windows.new ≡ count_entries windows.old + 1) }
{
    let (at, body) = parted(rest);
    let page = page(windows, at)?;
    let body = read_body(alloc, body)?;
    windows.push_ready(page, &body, copies)?;
    Ok(format!(in alloc; "done")?)
}

#[tactic(auto, using(crate::proofs::Counted::filled_counted))]
fn fill<C: Ledger>(
    alloc: Global,
    windows: &mut Windows,
    rest: &str,
    copies: &mut Steps<C>,
) -> Result<String>
    ensures { OnOk result (count_entries windows.new ≤ count_entries windows.old) }
{
    let (at, rest) = parted(rest);
    let (slot, body) = parted(rest);
    let page = page(windows, at)?;
    let slot = number(slot)?;
    let body = read_body(alloc, body)?;
    let waited = windows.fill(page, slot, &body, copies)?;
    Ok(format!(in alloc; "{}", yes_or_no(waited))?)
}

#[tactic(auto, using(crate::proofs::Counted::popped_counted))]
fn pop<C: Ledger>(
    alloc: Global,
    windows: &mut Windows,
    rest: &str,
    copies: &mut Steps<C>,
) -> Result<String>
    ensures { OnOk result (count_entries windows.new ≤ count_entries windows.old) }
{
    let page = page(windows, rest)?;
    match windows.pop_ready(page, copies)? {
        Some(body) => spelled(alloc, body.get()),
        None => Ok(format!(in alloc; "none")?),
    }
}

/// The page whose script may run.
fn ready(alloc: Global, windows: &Windows, word: &str) -> Result<String> {
    if word != "ready" {
        bail!("no line of queues: {word}");
    }
    match windows.ready() {
        Some(page) => Ok(format!(in alloc; "page {}", page.0)?),
        None => Ok(format!(in alloc; "none")?),
    }
}
