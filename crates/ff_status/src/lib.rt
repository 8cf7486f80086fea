//! How a run ends, and the line of it that goes to the error stream.
//!
//! Floor: commands. It decides neither what a browser does nor who may know.
#![tactic(auto)]

mod putting;
mod status;
mod words;

pub use status::{Status, TraceFault};
