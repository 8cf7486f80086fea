//! The error line of a run, of which one write fails.

use crate::spelling::{text, text_of};
use anyhow::Result;
use ff_io::MemSink;
use ff_lattice::LatticeFault;
use ff_policy::PolicyFault;
use ff_status::Status;
use std::alloc::Global;

/// The most writes that a line takes here, and one more.
const MOST_WRITES: u64 = 9;

/// Prints the rows.
pub fn show<R: Print>(rt: &R, alloc: Global) -> Result<()> {
    println!(rt; "# What is put of an error line where a write of it fails")?;
    let fault = LatticeFault::Repeated(text(alloc, "a\n")?);
    let status = Status::Policy(PolicyFault::Levels(fault));
    for bad in 1..=MOST_WRITES {
        let front = front(alloc, bad, &status)?;
        println!(rt;
            "  write {bad}: status {}, {:?}",
            status.number(),
            front.as_str()
        )?;
    }
    Ok(())
}

/// What is put of the line where the write with this number fails.
fn front(alloc: Global, bad: u64, status: &Status) -> Result<String> {
    let mut sink = MemSink::new(alloc, vec![in alloc; bad]?);
    status.report(&mut sink);
    text_of(alloc, Vec::from_slice(alloc, sink.put_bytes())?)
}
