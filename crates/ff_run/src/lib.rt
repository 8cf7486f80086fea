//! The top call: `run` obeys a command. It reads a trace from a port and multi-executes it with one
//! copy of the browser for each level (secure multi-execution: Devriese and Piessens 2010; in the
//! form for reactive machines: Bielova and others 2011), runs one browser over it, or formats it;
//! or it writes what the levels of a policy see, or the policy itself, or how much each level has
//! of a run over inputs that are drawn from a number.
//!
//! Floor: commands. It decides neither what a browser does nor who may know.
#![tactic(auto)]

mod law;
mod named;
mod policies;
mod rules;
mod states;
mod top;
mod words;

pub use ff_policy::NoMemory;
pub use ff_status::{Status, TraceFault};
pub use ff_writing::drawn_lines_are_a_trace;
pub use law::{
    a_whole_state_goes_on, two_runs_in_a_row_are_the_unbroken_one,
    what_is_put_line_by_line_is_the_whole_text,
};
pub use top::run;
