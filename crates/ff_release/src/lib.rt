//! The released run: inputs are multi-executed, but rules let a stated number of them pass to lower
//! levels.
//!
//! Floor: commands. It decides neither what a browser does nor who may know.
#![tactic(auto)]

mod law;
mod releasing;
mod walk;

pub use ff_pool::NoMemory;
pub use ff_rules::{MOST_RULES_BYTES, Release, ReleaseFail, ReleaseFault, Rule, Rules};
pub use law::a_released_run_tells_no_more_than_is_offered;
pub use walk::release;
