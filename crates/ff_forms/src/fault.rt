ghost use Rattle.ff_forms.specs.declared.fault.SyntaxFault.TheVariants.{NoMemory};
ghost use Rattle.std.specs.Prelude.{◌≡◌};

use std::alloc::{AllocError, AllocFailed};
use thiserror::Error;

/// Why an item is no document, expression or response. Each holds the place of the first byte of
/// the item at fault, in bytes from 0.
#[derive(Clone, Copy, Debug, PartialEq, Eq, Error)]
pub enum SyntaxFault {
    /// A list is empty, or its first item is no word that may head a list here: the place of the
    /// list, or of that item.
    #[error("syntax head at {0}")]
    Head(u32),
    /// The list has a wrong number of parts.
    #[error("syntax count at {0}")]
    Count(u32),
    /// The word should be a name or a variable and isn't, or names a parameter that stands before.
    #[error("syntax name at {0}")]
    Name(u32),
    /// The word should be a number and isn't.
    #[error("syntax number at {0}")]
    Number(u32),
    /// The word should be an address and isn't.
    #[error("syntax url at {0}")]
    Url(u32),
    /// The item is of the wrong sort, as a string where a list is wanted.
    #[error("syntax place at {0}")]
    Place(u32),
    /// There was no memory.
    #[error("out of memory")]
    NoMemory,
}

impl From<AllocError> for SyntaxFault {
    ghost from_gives = { λ _ fault. fault ≡ NoMemory };

    fn from(_refused: AllocError) -> SyntaxFault {
        SyntaxFault::NoMemory
    }
}

impl<T: Drop> From<AllocFailed<T>> for SyntaxFault {
    ghost from_gives = { λ _ fault. fault ≡ NoMemory };

    fn from(_refused: AllocFailed<T>) -> SyntaxFault {
        SyntaxFault::NoMemory
    }
}
