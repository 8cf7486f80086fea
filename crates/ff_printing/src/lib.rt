//! Documents, expressions, responses and what the user is shown, printed in the notation.
//!
//! Floor: notation. It knows not what a machine makes of what is read.
#![tactic(auto)]

mod law;
mod print;
mod print_reply;
mod print_shown_part;
mod print_tree;
mod printer;

pub use ff_name::NoMemory;
pub use law::a_weight_is_that_of_its_items;
pub use print::{print_doc, print_expr, print_pairs, print_resp, print_shown};
pub use printer::Printer;
