//! The words that the contracts of all crates share: what a call leaves in an output, what it
//! answers where there may be no memory, and the counter of steps by which a clause says how many
//! copies or turns a call makes.
//!
//! Floor: ground. It knows no browser, and not what a word means.
#![tactic(auto)]

mod steps;

pub use steps::Steps;
