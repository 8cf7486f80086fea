//! Windows, pages with their queues of scripts, and the activations in which scripts run.
//!
//! Floor: one browser. It knows of no levels.
//!
//! [`Windows`] is seen as the record of that name of the written machine: windows, pages and
//! activations by their numbers, and the open windows in order of opening. It is valid by itself at
//! all times, also after want of memory; then it may hold less than before, down to nothing.
//!
//! Windows and pages are cells of lists that forks share until one of them writes. A queue is two
//! such lists, the first of which is read from a place on, so that taking out a script moves
//! nothing. What is only read takes no memory.
#![tactic(auto)]

mod activations;
mod changes;
mod checking;
mod page;
mod pages;
mod queue;
mod queues;
mod readers;
mod recording;
mod referring;
mod restoring;
mod window;
mod windows;

pub use ff_machine::Entry;
pub use ff_name::NoMemory;
pub use ff_operators::Fail as WinFail;
pub use ff_records::{
    ActRec, ActRecs, Entries, PageRec, PageRecs, Variable, Vars, WinIds, WinRec, WinRecs,
};
pub use windows::Windows;
