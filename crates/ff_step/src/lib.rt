//! One reduction of a script over the stores, and the work of one fuel on a task.
//!
//! Floor: one browser. It knows of no levels.
//!
//! [`reduce`] is the written reduction. The control lends it the redex; the row of the redex
//! decides what it becomes, by a method of the stores or a function of its own, and only then is
//! that put for the redex. Rows change the stores by the methods of `Stores` alone, so the stores
//! are valid at every return. [`Task::work`] is what one fuel makes of a task.
//!
//! A fault leaves everything as it was. After want of memory the stores are valid, and what they
//! and the control hold is not stated; a front of the new outputs stands behind the old ones.
//!
//! # Copies of cells
//!
//! `working` of `specs/Copies` says how many cells a reduction copies at most, by its redex: 64 for
//! a variable that is declared or assigned, 64 for each parameter of a call and 64, 47 for each
//! node of a tree that is made, what the operator copies, and else none.
#![tactic(auto)]

mod calls;
mod reducing;
mod rows;
mod task;
mod working;

pub use ff_machine::Reduced;
pub use ff_name::NoMemory;
pub use ff_store_operators::Stores;
pub use reducing::reduce;
pub use task::Task;
