//! The pure operators of the script language: those on numbers, truth values and texts, which read
//! and change no store.
//!
//! Floor: one browser. It knows of no levels.
//!
//! [`apply`] gives what an operator makes of its operands, or why it fails. Operands are lent, and
//! memory is taken for made texts alone.
#![tactic(auto)]

mod answer;
mod arithmetic;
mod comparisons;
mod limits;
pub mod operands;
mod operators;
mod texts;

pub use answer::{Applied, Fail};
pub use limits::{MOST_MADE_BYTES, MOST_MASS};
pub use operators::apply;
