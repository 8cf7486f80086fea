//! The commands that read no trace and write one text: what the levels of a policy see, the policy
//! itself, and how much each level has of a run over inputs that are drawn from a number.
//!
//! Floor: commands. It decides neither what a browser does nor who may know.
#![tactic(auto)]

mod law;
mod listing;
mod summing;
mod tally;
mod upgrading;
mod whole;

pub use ff_name::NoMemory;
pub use law::drawn_lines_are_a_trace;
pub use listing::check;
pub use summing::generate;
pub use upgrading::upgrade;
