//! Traces that are drawn from a number, for loads that anyone can make again.
//!
//! Floor: notation. It knows not what a machine makes of what is read.
//!
//! A linear congruential generator gives a number for each line; the upper half of the number
//! chooses among eight lines, two of which have it in their text.
#![tactic(auto)]

mod generator;

pub use generator::{Draws, MOST_LINES, NoMemory, workload};
