//! The libraries of `ffox` behind one name, for a program of your own: name `libffox` in
//! `crates.txt`, and no other crate of the project.
//!
//! Each part is a module here: `policy::Policy::read` reads a policy, `trace::read_input` a line of
//! a trace, `route::offers` says what each level sees of an input, and a `Pool` runs a copy of the
//! browser for each level:
//!
//! ```text
//! let policy = policy::Policy::builtin(alloc)?;
//! let mut pool = Pool::new(alloc, policy.lattice().size(), policy.fuel())?;
//! let offers = route::offers(alloc, &policy, &input)?;
//! pool.arrive(&offers, &mut copies)?;
//! pool.drain(1_000, &mut copies, &mut turns)?;
//! let outs = pool.take(Level(0))?;
//! ```
//!
//! Turns and copied cells are counted by `Steps`, one for each, made in a function that is generic
//! in its ledger and called at `Brand` (`docs/USE.md`). A call that is refused for want of memory
//! says in its contract what then stands: a store is empty, a pool is spent. A value whose `Drop`
//! is written out can't be taken apart by a pattern that moves its parts: match on `&value`, and
//! `copy` what is to be kept.
//!
//! Floor: beside. Nothing of the program stands on it.
#![tactic(auto)]

pub use ff_audit as audit;
pub use ff_contract::Steps;
pub use ff_core::{Browser, Reactor, Restorable};
pub use ff_frames as frames;
pub use ff_gen as generator;
pub use ff_io as outside;
pub use ff_lattice as lattice;
pub use ff_name::{Level, NoMemory};
pub use ff_net as net;
pub use ff_nodes as nodes;
pub use ff_operators as operators;
pub use ff_policy as policy;
pub use ff_release as releasing;
pub use ff_route as route;
pub use ff_run as running;
pub use ff_save as saving;
pub use ff_session as session;
pub use ff_step as stepping;
pub use ff_syntax as syntax;
pub use ff_text as text;
pub use ff_trace as trace;
pub use ff_travel as travelling;
pub use ff_value as value;
pub use ff_windows as windows;

/// One copy of the browser for each level.
pub type Pool = ff_pool::Pool<Browser>;

/// Both programs over one list of inputs, compared level by level.
pub type Auditor = ff_audit::Auditor<Browser>;

/// A pool under commands, and back.
pub type Travel<'a> = ff_travel::Travel<'a, Browser>;
