//! Documents, expressions, responses and their parts, read from items of the notation.
//!
//! Floor: notation. It knows not what a machine makes of what is read.
#![tactic(auto)]

mod calls;
mod law;
mod leaves;
mod parameters;
mod reading;
mod shapes;
mod words;

pub use calls::{read_doc, read_expr, read_name, read_parameters, read_resp};
pub use ff_forms::{NoMemory, SyntaxFault};
pub use law::{what_is_at_fault_is_refused, what_is_spelled_is_read};
