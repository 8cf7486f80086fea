//! Prints what the crates of the outside answer: the counter of steps, lists that forks share,
//! ports, lines, sinks and shelves, those in memory and those of the system, and the loop over the
//! lines of a trace. Its input has two lines, and its folder has the file `shelf.txt`.
//!
//! Floor: beside. Nothing of the browser stands on it.
#![tactic(auto)]

mod counter;
mod forks;
mod given;
mod loops;
mod ports;
mod shelves;
mod system;

use std::io;

fn main(rt: HostRuntime) -> io::Result<()> {
    counter::show(&rt)?;
    forks::show(&rt)?;
    ports::show(&rt)?;
    shelves::show(&rt)?;
    system::show(&rt)?;
    loops::show(&rt)
}
