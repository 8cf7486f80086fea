//! Runs that go on from where copies stand, and are saved at their end.
//!
//! Floor: commands. It decides neither what a browser does nor who may know.
//!
//! [`resume`] multi-executes a trace with the copies of a pool at rest, and after a good trace puts
//! the saved text of where the copies then stand. The pool is a new one, or one that was read from
//! such a text: so a long run can be cut into several, and tells what the unbroken one does.
#![tactic(auto)]

mod law;
mod resuming;

pub use law::{
    a_run_ends_at_rest, copies_are_saved_as_the_pool_that_stands_there,
    equal_standings_are_saved_as_the_same, new_copies_are_at_rest,
    parts_of_a_run_are_the_whole_run, what_was_saved_goes_on,
};
pub use resuming::resume;
