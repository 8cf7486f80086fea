//! What whoever saves copies of a browser asks of it, beside what `ff_reactor` says: at rest it is
//! its stores, which it tells, and it is made of stores again.
//!
//! Floor: one browser. It knows of no levels.
#![tactic(auto)]

mod restorable;

pub use ff_reactor::{MOST_BUDGET, NoMemory, Reactor};
pub use restorable::Restorable;
