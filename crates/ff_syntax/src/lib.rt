//! Documents and scripts as items of the notation: their forms read and printed. For who uses the
//! libraries; the crates of the project name the three that are behind it.
//!
//! Floor: notation. Nothing here decides who may know.
#![tactic(auto)]

pub use ff_forms::{NoMemory, SyntaxFault};
pub use ff_printing::{print_doc, print_expr, print_pairs, print_resp, print_shown};
pub use ff_reading::{read_doc, read_expr, read_resp};
