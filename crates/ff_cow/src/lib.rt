//! A list that is shared between forks, and copied only where one of them writes.
//!
//! Floor: ground. It knows no browser, and not what a word means.
//!
//! A [`CowVec`] is a list in contracts. It is held as a tree of `Rc` nodes, sixteen to a node: two
//! layers high while it has no more than 256 cells, and then five, so it has at most [`MOST_CELLS`]
//! cells. When it outgrows the low form its root is put under three new nodes, no cell is copied,
//! and it never becomes low again. A fork shares the nodes with the list that it came from: it
//! copies no cell. A write copies only the shared nodes between the root and its cell, with them
//! the cells of at most one leaf. A counter of type `Steps` says how many cells were copied.
//!
//! A cell is written where it lies: an [`Edit`] goes down to it and changes what it has to, so that
//! what stays the same is neither copied nor moved. What it takes is made before, so that it can't
//! be refused half way. To put a whole cell is one such edit.
//!
//! A read or a write goes down one node of each layer: the root and a leaf, and in a long list
//! three branches between. After a shared node was copied it has one owner, which no clause of `Rc`
//! can tell: the arm for a second owner does not come, and answers want of memory.
//!
//! The function for which a caller picks the counter's ledger names the type of its cells: with a
//! bound `V: Cell<C>` of its own no ledger can be picked for it.
#![tactic(auto)]

mod branch;
mod cell;
mod cow_vec;
mod edit;
mod layer;
mod leaf;
mod root;

pub use cell::{Cell, NoMemory};
pub use cow_vec::{CowVec, MOST_CELLS, PushFail};
pub use edit::Edit;
