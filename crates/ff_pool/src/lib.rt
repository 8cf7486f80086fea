//! A pool of browsers: one copy for each level, where levels that were offered the same so far are
//! one copy.
//!
//! Floor: copies. It knows not how a trace is written.
//!
//! ```text
//! let mut pool = Pool::<Browser>::new(alloc, policy.lattice().size(), policy.fuel())?;
//! let seen = offers(alloc, &policy, &input)?; // of ff_route: what each level sees of it
//! pool.arrive(&seen, &mut copies)?;
//! pool.drain(1_000, &mut copies, &mut turns)?;
//! let outputs = pool.take(Level(0))?;
//! ```
//!
//! A [`Pool`] is seen as a world of copies: each level has a state, an inbox of inputs that wait,
//! the outputs that nobody took, and its class, the levels that are one copy with it. What one
//! copy of a class does, all of them do, so it is done once. Offers that differ part a class, at
//! any moment, also in the middle of a script; classes never join again.
//!
//! The pool knows what a level is offered and not why: it knows no policy. Nor does it know what a
//! browser is made of: any [`Reactor`] will do.
//!
//! It holds a slot for each level and an array of leaders, the least level of each class. Classes
//! only part, so a slot that leads no class is the empty browser. In a drain a class is visited
//! once for each slice: its browser makes the steps one after another, and then each level is given
//! what they put. A slice counts steps, those that take an input too.
//!
//! # Want of memory
//!
//! A call that changes the pool and finds no memory leaves it spent, which it is from before its
//! work until after it. A spent pool asks nothing of a browser any more: all such calls answer that
//! there is no memory.
#![tactic(auto)]

mod classes;
mod drain;
mod event;
mod group;
mod heads;
mod inbox;
mod leading;
mod outs;
mod parts;
mod play;
mod pool;
mod restoring;

pub use event::Event;
pub use ff_reactor::{MOST_BUDGET, NoMemory, Reactor};
pub use pool::Pool;
pub use restoring::Browsers;
