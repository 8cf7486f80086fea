//! The stores of one copy of the browser together.
//!
//! Floor: one browser. It knows of no levels.
//!
//! [`Stores`] is seen as the record of that name of the written machine: nodes, windows, cookies,
//! pending requests, the mass and the touched pages. That all of it is valid, references from one
//! store to another included, is the type's own invariant, so it holds at every return. Each change
//! is one method, which leaves what the machine's definition of that change says. What stands above
//! this crate touches no store but through these methods.
//!
//! A change that is refused memory promises nothing of what the stores hold, and of the outputs
//! only that a front of the new ones stands behind the old ones. Where a part of the change was
//! written by then, the stores become empty ones, which takes no memory; nothing is undone.
#![tactic(auto)]

/// Leaves nothing in the stores, whose memory has run out: each part is emptied by itself, since
/// a proof that drops the stores as a whole at each way out takes nearly twice as long.
macro_rules! nothing_left {
    ($stores:expr) => {
        crate::stores::leave_nothing(
            $stores.alloc,
            &mut $stores.nodes,
            &mut $stores.windows,
            &mut $stores.jar,
            &mut $stores.requests,
            &mut $stores.mass,
            &mut $stores.touched,
        )
    };
}

mod cookies;
mod loading;
mod replies;
mod restoring;
mod sending;
mod starting;
mod stores;
mod touched;
mod trees;
mod turns;
mod variables;

pub use stores::Stores;
