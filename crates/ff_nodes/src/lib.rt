//! Node trees by number.
//!
//! Floor: one browser. It knows of no levels.
//!
//! [`Nodes`] is seen as the list of the nodes by their numbers. What makes such a store valid
//! (children and parents agree, a node stands once, no chain of parents is too long, each kind has
//! the parts that are its own) is the type's own invariant. The nodes are held as cells of a list
//! that forks share until one of them writes. Each cell has marks beside its node: which names and
//! kinds may stand at and below it, by which a search passes over a tree where it would find
//! nothing. No clause of a public call speaks of marks.
//!
//! What changes, copies or lists nodes may be refused for want of memory. They are valid then, and
//! what they are is said at the call. Searches take none.
#![tactic(auto)]

mod cell;
mod change;
mod checking;
mod climb;
mod edits;
mod inserting;
mod laying;
mod listed;
mod making;
mod marks;
mod node;
mod nodes;
mod parenting;
mod raising;
mod read;
mod recording;
mod referring;
mod restoring;
mod room;
mod search;

pub use ff_machine::{Kind, Shape as NodeShape};
pub use ff_name::NoMemory;
pub use ff_operators::Fail as NodeFail;
pub use ff_records::{NodeRec, NodeRecs};
pub use nodes::Nodes;
