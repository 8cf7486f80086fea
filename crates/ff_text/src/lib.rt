//! The parenthesised notation: reads bytes as items, and prints items.
//!
//! Floor: notation. It knows not what a machine makes of what is read.
//!
//! A text is read from left to right as words, strings in quotation marks and lists in parentheses,
//! each with its place. What bytes spell is a grammar of its own, apart from the reader.
#![tactic(auto)]

mod bytes;
mod escaped;
mod growing_list;
mod items;
mod law;
mod printing;
mod reader;
mod reading;

pub use escaped::{Escaped, MOST_ESCAPED_BYTES, is_plain};
pub use ff_name::{NoMemory, Text};
pub use items::{Items, Sexp, Span, TextFault};
pub use law::a_text_spells_items_or_has_a_fault;
pub use printing::{print, quote};
pub use reading::{MOST_BYTES, read, read_items, read_items_in};
