//! What a pool asks of the browser that it keeps copies of: it is a reactor (Bohannon and Pierce
//! 2010), and does what the written machine does.
//!
//! Floor: one browser. It knows of no levels.
//!
//! What stands on a [`Reactor`] is proved for whatever meets these clauses: it has to know neither
//! how a browser keeps its stores nor what its turns do inside.
#![tactic(auto)]

mod law;
mod reactor;

pub use ff_name::NoMemory;
pub use law::an_input_takes_few_turns;
pub use reactor::{MOST_BUDGET, Reactor};
