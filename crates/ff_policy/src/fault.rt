ghost use Rattle.ff_policy.specs.declared.fault.PolicyFault.TheVariants.{NoMemory};
ghost use Rattle.std.specs.Prelude.{◌≡◌};

use ff_lattice::LatticeFault;
use ff_name::Text;
use std::alloc::{AllocError, AllocFailed};
use thiserror::Error;

/// Why bytes are no policy, in the order in which the faults come.
#[derive(Debug, PartialEq, Eq, Error)]
pub enum PolicyFault {
    /// There are over 65,536 bytes.
    #[error("too large")]
    TooLarge,
    /// The bytes aren't JSON.
    #[error("not JSON")]
    NotJson,
    /// The value isn't an object, or its `version` is neither the number 1 nor the number 2.
    #[error("bad version")]
    BadVersion,
    /// The least other member in byte order, or `kinds.` and the least unknown kind, or `kinds.`,
    /// the first kind with an unknown member, a dot, and its least such member.
    #[error("unknown field")]
    UnknownField(Text),
    /// The first member, in the order of the table, that is required and absent or has another
    /// shape.
    #[error("bad shape")]
    BadShape(Text),
    /// The levels and the pairs are no lattice.
    #[error("{0}")]
    Levels(LatticeFault),
    /// The first place whose string names no level.
    #[error("unknown level")]
    UnknownLevel(Text),
    /// The least key in byte order that is neither a domain nor a dot followed by one.
    #[error("bad domain")]
    BadDomain(Text),
    /// The fuel is 0 or over 1,000,000.
    #[error("bad fuel")]
    BadFuel,
    /// The first kind of input whose presence isn't at or below its content.
    #[error("content below presence")]
    ContentBelowPresence(Text),
    /// There was no memory.
    #[error("out of memory")]
    NoMemory,
}

// Written out, so that the proof of a caller sees one call and not a case for each variant.
impl Drop for PolicyFault {
    fn drop(self) {
        match self {
            PolicyFault::TooLarge => (),
            PolicyFault::NotJson => (),
            PolicyFault::BadVersion => (),
            PolicyFault::UnknownField(_field) => (),
            PolicyFault::BadShape(_field) => (),
            PolicyFault::Levels(_fault) => (),
            PolicyFault::UnknownLevel(_place) => (),
            PolicyFault::BadDomain(_key) => (),
            PolicyFault::BadFuel => (),
            PolicyFault::ContentBelowPresence(_kind) => (),
            PolicyFault::NoMemory => (),
        }
    }
}

impl From<AllocError> for PolicyFault {
    ghost from_gives = { λ _ fault. fault ≡ NoMemory };

    fn from(_refused: AllocError) -> PolicyFault {
        PolicyFault::NoMemory
    }
}

impl<T: Drop> From<AllocFailed<T>> for PolicyFault {
    ghost from_gives = { λ _ fault. fault ≡ NoMemory };

    fn from(_refused: AllocFailed<T>) -> PolicyFault {
        PolicyFault::NoMemory
    }
}
