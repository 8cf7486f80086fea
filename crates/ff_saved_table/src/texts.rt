//! Saved texts, read and written again.
ghost use Rattle.std.specs.Prelude.{IfOk};

use crate::printing::print_lines;
use anyhow::Result;
use ff_contract::Steps;
use ff_core::Browser;
use ff_name::NoMemory;
use ff_policy::Policy;
use ff_save::{SavedFail, read_saved, write_saved};
use std::alloc::{AllocError, Global};
use std::sync::ledger::Ledger;

/// Prints the text of the pool whose saved text the lines are, or what is wrong with them.
pub fn print_text<C: Ledger>(
    rt: &HostRuntime,
    policy: &Policy,
    lines: &[String],
    copies: &mut Steps<C>,
) -> Result<()> {
    let alloc = rt.alloc();
    let text = joined(alloc, lines)?;
    let mut again = Vec::new(alloc);
    let verdict = verdict_of(alloc, policy, text.as_bytes(), &mut again, copies)?;
    println!(rt; "  {verdict}")?;
    print_lines(rt, again.as_slice())
}

/// What is said of a text. The text that is written of its pool is appended.
pub fn verdict_of<C: Ledger>(
    alloc: Global,
    policy: &Policy,
    text: &[u8],
    again: &mut Vec<u8>,
    copies: &mut Steps<C>,
) -> Result<String, NoMemory> {
    match read_saved::<Browser, C>(alloc, policy, text, copies) {
        Ok(pool) => {
            write_saved(alloc, policy, &pool, again)?;
            format!(in alloc; "saved")
        }
        Err(SavedFail::Fault(fault)) => format!(in alloc; "{fault}"),
        Err(SavedFail::NoMemory) => Err(AllocError),
    }
}

/// The lines, each with its newline.
pub fn joined(alloc: Global, lines: &[String]) -> Result<String, NoMemory> {
    let mut text = String::new(alloc);
    for line in lines {
        text.push_str(line.as_str())?;
        text.push('\n')?;
    }
    Ok(text)
}
