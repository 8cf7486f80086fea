//! The operators of scripts over the stores: one function for each, which does what the written
//! machine's definition of that operator says, or answers the fault that it says.
//!
//! Floor: one browser. It knows of no levels.
//!
//! [`operate`] takes an operator, its operands and the page of the task that runs. Operators that
//! only read take the stores lent and put nothing. No function here touches a field of the stores:
//! each change is one call of theirs. After want of memory nothing is promised of the stores, and
//! of the outputs that a front of the new ones stands behind the old ones.
//!
//! `most_copies` of `specs/Copies` says how many cells an operator copies at most: a number of its
//! own, and for `insert` 81 more for each script of the child. Where it is 0 none is copied.
#![tactic(auto)]

mod asking;
mod changes;
mod cookies;
mod nodes;
mod opening;
mod operands;
mod operating;
mod pure;
mod readers;
mod windows;
mod words;

pub use ff_stores::Stores;
pub use operating::operate;
