//! What copies of the browser are saved as.
//!
//! Floor: saved state. It knows not how a trace is walked.
//!
//! ```text
//! write_saved(alloc, &policy, &pool, &mut text)?; // of a pool at rest
//! let again = read_saved::<Browser, C>(alloc, &policy, text.as_slice(), &mut copies)?;
//! ```
//!
//! `specs/Saved` says which records a pool at rest has, its classes and the records of one browser
//! for each, and the text of their rows. [`write_saved`] appends this text, and [`read_saved`]
//! gives the pool whose text some bytes are: it reads their lines in whatever spelling, makes the
//! pool of their records, writes it again, and compares the bytes. Of one browser, [`put_stores`]
//! appends the rows of its stores, and [`restore_stores`] makes stores of their records. Nothing is
//! lost in records: equal ones are of equal stores and of equal pools.
#![tactic(auto)]

mod fail;
mod gathering;
mod law;
mod read;
mod restoring_stores;
mod stores_law;
mod write;
mod writing_stores;

pub use fail::SavedFail;
pub use ff_name::NoMemory;
pub use ff_saved_rows::SavedFault;
pub use law::{
    a_saved_text_is_of_one_pool, bytes_are_a_state_or_have_a_fault,
    equal_records_are_of_equal_pools,
};
pub use read::{MOST_SAVED_BYTES, read_saved};
pub use restoring_stores::restore_stores;
pub use stores_law::{equal_records_are_of_equal_stores, rows_of_valid_stores_are_rows};
pub use write::write_saved;
pub use writing_stores::put_stores;
