//! Travel: a pool of browsers under commands, which turn it step by step and take steps back.
//!
//! Floor: commands. It decides neither what a browser does nor who may know.
//!
//! ```text
//! let mut travel = Travel::<Browser>::new(alloc, &policy)?;
//! if let Some(command) = read_command(alloc, &mut room, b"turn H 3", policy.lattice())? {
//!     travel.apply(&command, &mut text, &mut copies, &mut turns)?;
//! }
//! ```
//!
//! A trace of commands takes the place of one of inputs, and a [`Travel`] keeps the pool as it was
//! before each command that is in force, so that `back` is as exact as it is quick. It is kept as a
//! fork of which all outputs were taken, and the number of each level's outputs until then; the
//! outputs lie beside the pool once for each level, and stepping back cuts them. Inputs that wait
//! are shared by forks but for the last sixteen. So a travel is as long as its commands and its
//! outputs.
//!
//! What `show` writes is read off the definitions alone: it is what a fresh replay of the commands
//! still in force would show.
//!
//! What `show` writes is for whoever may see every level: the line of a class tells a level that
//! others were offered something else.
#![tactic(auto)]

mod command;
mod command_reader;
mod history;
mod kept;
mod law;
mod outputs;
mod parts;
mod reading;
mod reading_law;
mod showing;
mod steps;
mod traveller;

pub use command::{Command, CommandFault, Verb};
pub use command_reader::CommandReader;
pub use ff_pool::{NoMemory, Reactor};
pub use history::Travel;
pub use law::{
    a_travel_is_a_fresh_replay, a_turn_without_work_changes_nothing,
    what_is_shown_begins_the_plain_run,
};
pub use reading::read_command;
pub use reading_law::{a_line_is_one_command, a_trace_of_commands_is_read_in_one_way};
pub use traveller::travel;
