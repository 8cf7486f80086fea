//! The lines of a trace, which are inputs, and the lines that the program writes, which are
//! outputs.
//!
//! Floor: notation. It knows not what a machine makes of what is read.
//!
//! ```text
//! let mut room = Room::new(alloc);
//! match read_input(alloc, &mut room, b"click 0 0", policy.lattice())? {
//!     Some(input) => print_input(&input, policy.lattice(), &mut text)?,
//!     None => {} // a comment, or blanks alone
//! }
//! ```
//!
//! Each reader refuses with a [`LineFault`], of which `NoMemory` is one: then nothing was read.
//! What appends and finds no memory has appended a front.
#![tactic(auto)]

mod acts;
mod fault;
mod law;
mod pairs;
mod parts;
mod pieces;
mod printing;
mod reading;

pub use acts::kind_of;
pub use fault::LineFault;
pub use ff_name::NoMemory;
pub use law::{
    a_line_is_read_in_one_way, pairs_are_put_in_order, the_first_fault_of_a_line_decides,
    what_is_spelled_is_a_part,
};
pub use parts::{number_of, read_address, read_domain, read_number, read_string};
pub use printing::{print_input, print_out};
pub use reading::{Room, is_silent, read_input};
