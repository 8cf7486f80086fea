//! What the commands make of the lines of a trace: the reader of inputs, what takes the inputs for
//! each command, and the walks over a port, line by line, of a multi-executed run, of one browser
//! and of formatting. Commands that count or compare what each level got split texts into lines
//! here.
//!
//! Floor: commands. It decides neither what a browser does nor who may know.
#![tactic(auto)]

mod ending;
mod format;
mod handling;
mod input_reader;
mod law;
mod multi;
mod offered;
mod plain;
mod printing;
mod splitting;

pub use ending::{close, status_of};
pub use ff_pool::{NoMemory, Pool, Reactor};
pub use format::{Formatting, walk_format};
pub use input_reader::InputReader;
pub use law::{
    a_run_from_anywhere_tells_a_level_what_it_sees, a_run_goes_on_from_where_its_copies_stand,
    a_trace_is_read_in_one_way, a_view_depends_on_what_is_offered_at_or_below,
    inputs_are_the_same_where_they_are_equal, multi_is_noninterfering,
    parts_of_a_trace_are_the_whole_trace, two_runs_that_look_alike_give_one_view,
};
pub use multi::{Copies, USUAL_SLICE, walk_copies, walk_multi};
pub use offered::{new_pool, take_offers};
pub use plain::{Plain, walk_plain};
pub use printing::print_level;
pub use splitting::{content, is_headed, split_inclusive};
