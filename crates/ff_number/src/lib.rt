//! Whole numbers in decimal, read and printed in their one canonical spelling.
//!
//! Floor: words. It knows not how they are written in a trace, and not who may see them.
#![tactic(auto)]

mod digits;
mod printing;
mod reading;

pub use digits::Digits;
pub use printing::{print_nat, print_num};
pub use reading::{read_nat, read_num};
use std::alloc::AllocError;
/// There is no memory for what a call makes: it asked for some, and none was given.
pub type NoMemory = AllocError;
