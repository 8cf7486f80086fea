ghost use Rattle.ff_lattice.specs.declared.fault.LatticeFault.TheVariants.{NoMemory};
ghost use Rattle.std.specs.Prelude.{◌≡◌};

use ff_name::Text;
use std::alloc::{AllocError, AllocFailed};
use thiserror::Error;

/// Why names and pairs are no lattice, in the order in which the faults come.
#[derive(Debug, PartialEq, Eq, Error)]
pub enum LatticeFault {
    /// There are no names.
    #[error("no levels")]
    NoLevels,
    /// There are more than 16 names.
    #[error("too many levels")]
    TooMany,
    /// The first place, from 0, whose name isn't a letter followed by at most 31 letters, digits,
    /// `_` or `-`.
    #[error("bad level name {0}")]
    BadName(u32),
    /// The first name that stands before, too.
    #[error("repeated level")]
    Repeated(Text),
    /// The first name in the pairs that is no level, the low one of a pair before the high one.
    #[error("unknown name")]
    Unknown(Text),
    /// The least two levels that are each at or below the other.
    #[error("cycle")]
    Cycle(Text, Text),
    /// The least two levels with no least upper bound.
    #[error("no join")]
    NoJoin(Text, Text),
    /// The least two levels with no greatest lower bound.
    #[error("no meet")]
    NoMeet(Text, Text),
    /// There was no memory.
    #[error("out of memory")]
    NoMemory,
}

// Written out, so that the proof of a caller sees one call and not a case for each variant.
impl Drop for LatticeFault {
    fn drop(self) {
        match self {
            LatticeFault::NoLevels => (),
            LatticeFault::TooMany => (),
            LatticeFault::BadName(_) => (),
            LatticeFault::Repeated(_name) => (),
            LatticeFault::Unknown(_name) => (),
            LatticeFault::Cycle(_low, _high) => (),
            LatticeFault::NoJoin(_low, _high) => (),
            LatticeFault::NoMeet(_low, _high) => (),
            LatticeFault::NoMemory => (),
        }
    }
}

impl From<AllocError> for LatticeFault {
    ghost from_gives = { λ _ fault. fault ≡ NoMemory };

    fn from(_refused: AllocError) -> LatticeFault {
        LatticeFault::NoMemory
    }
}

impl<T: Drop> From<AllocFailed<T>> for LatticeFault {
    ghost from_gives = { λ _ fault. fault ≡ NoMemory };

    fn from(_refused: AllocFailed<T>) -> LatticeFault {
        LatticeFault::NoMemory
    }
}
