//! A script that runs by itself, for the tables and the benches of its control: its control, and
//! the little that it needs of a store. Nothing of the browser stands on it.
//!
//! Floor: beside. Nothing of the browser stands on it.
#![tactic(auto)]

mod reading;
mod script;
mod store;

pub use reading::read_body;
pub use script::Script;
