//! One browser as a reactor (Bohannon and Pierce 2010): quiet, it takes an input; else it makes one
//! turn after another until it is quiet again.
//!
//! Floor: one browser. It knows of no levels.
//!
//! [`Browser`] is seen as the state of the written machine, and each call does what the machine's
//! definition says. That the state is valid is the type's own invariant, so it holds at every
//! return. A call that is refused memory leaves a new browser with the same budget.
#![tactic(auto)]

mod browser;
mod calls;
mod inputs;
mod parts;
mod replies;
mod turns;

pub use browser::Browser;
pub use ff_name::NoMemory;
pub use ff_restorable::{MOST_BUDGET, Reactor, Restorable};
