//! The rows of a saved text: what is saved of the stores of one browser and of the classes of
//! copies, one line for each row, as items of the notation.
//!
//! Floor: saved state. It knows not how a trace is walked.
//!
//! `Rows` says how each row is spelled, and which rows the records of one browser's stores are, in
//! which order. The printers append the lines of records. [`read_row`] reads a line that is spelled
//! so; it reads other spellings of the row too, so who needs the very bytes prints the rows again.
//! [`Draft`] gathers the rows of one browser's stores as records.
#![tactic(auto)]

mod draft;
mod fault;
mod kinds;
mod lines;
mod parts;
mod print;
mod read;
mod row;
mod values;

pub use draft::{Draft, Drafted};
pub use fault::SavedFault;
pub use ff_name::NoMemory;
pub use ff_printing::Printer;
pub use ff_trace::LineFault;
pub use kinds::{ListKind, RowKind};
pub use lines::{
    put_act, put_asks, put_class, put_cookies, put_end, put_head, put_mass, put_node, put_open,
    put_page, put_policy, put_win,
};
pub use read::read_row;
pub use row::Row;
