//! What a call answers, as a line.

use ff_operators::Fail;
use ff_value::{Fault, NodeId, PageId, WinId};
use std::io;

/// What a change of trees or a call of the stores answers.
#[derive(Clone, Copy)]
pub enum Answer {
    Done,
    Nothing,
    Said(bool),
    Made(NodeId),
    /// Whom a request that was taken is for.
    ForWindow(WinId),
    ForSlot(PageId, u32),
    ForCall(PageId),
    /// Whether the mass may grow, whether it did, and what it is then, in bytes.
    Weighed(bool, bool, u64),
    Mass(u64),
    Fault(Fault),
    NoMemory,
}

impl Answer {
    /// The answer that a node was made, or why not.
    pub fn made(answer: Result<NodeId, Fail>) -> Answer {
        match answer {
            Ok(n) => Answer::Made(n),
            Err(fail) => Answer::failed(fail),
        }
    }

    /// The answer that something was done, or why not.
    pub fn done(answer: Result<(), Fail>) -> Answer {
        match answer {
            Ok(()) => Answer::Done,
            Err(fail) => Answer::failed(fail),
        }
    }

    fn failed(fail: Fail) -> Answer {
        match fail {
            Fail::Fault(fault) => Answer::Fault(fault),
            Fail::NoMemory => Answer::NoMemory,
        }
    }

    /// Prints the answer on a line of its own.
    pub fn show<R: Print>(self, rt: &R) -> io::Result<()> {
        match self {
            Answer::Done => println!(rt; "  done"),
            Answer::Nothing => println!(rt; "  none"),
            Answer::Said(yes) => println!(rt; "  {yes}"),
            Answer::Made(n) => println!(rt; "  node {}", n.0),
            Answer::ForWindow(window) => println!(rt; "  for window {}", window.0),
            Answer::ForSlot(page, slot) => println!(rt; "  for slot {slot} of page {}", page.0),
            Answer::ForCall(page) => println!(rt; "  for a call of page {}", page.0),
            Answer::Weighed(may, did, mass) => println!(rt; "  {may}, {did}, {mass}"),
            Answer::Mass(mass) => println!(rt; "  {mass}"),
            Answer::Fault(fault) => println!(rt; "  fault {}", fault.word()),
            Answer::NoMemory => println!(rt; "  no memory"),
        }
    }
}
