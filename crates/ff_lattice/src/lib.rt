//! The lattice of levels: which levels there are, which is at or below which, and sets of levels.
//!
//! Floor: who may know. It knows not what a browser does with an input.
#![tactic(auto)]

mod bounds;
mod fault;
mod lattice;
mod level_set;
mod names;
mod numbering;
mod pair;
mod relation;

pub use fault::LatticeFault;
pub use ff_name::NoMemory;
pub use lattice::Lattice;
pub use level_set::LevelSet;
pub use names::{MOST_LEVEL_NAME_BYTES, MOST_LEVELS};
pub use pair::Pair;
