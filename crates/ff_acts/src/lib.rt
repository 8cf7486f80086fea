//! Activations with their variables, of one copy of the browser.
//!
//! Floor: one browser. It knows of no levels.
//!
//! [`Acts`] is seen as the list of all activations ever made, each with its parent and its finite
//! map of variables. It holds two lists that forks share until one of them writes: a cell for each
//! activation, and a cell for each variable of whatever activation, in order of declaration. So a
//! fork copies no cell, and a declaration or an assignment a few.
//!
//! The variables of one activation are linked to a digital search tree. A search begins at the
//! activation's first cell with the digits of the name: at each cell of another name it goes right
//! where the next digit is 1, and else left. The first 32 digits are spread well over the names,
//! and those of the name's own bytes come after them, so that no two names have the same ones. A
//! new variable is linked where the search for it found no cell. Links lead to later cells only,
//! and none is ever changed or taken away.
//!
//! A change, a copy and the making of records may be refused for want of memory. After that a
//! change promises nothing of what is held.
#![tactic(auto)]

mod acts;
mod cells;
mod digits;
mod edits;
mod growing;
mod recording;
mod referring;
mod restoring;
mod searching;

pub use acts::Acts;
