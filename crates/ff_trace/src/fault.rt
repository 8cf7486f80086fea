ghost use Rattle.ff_trace.specs.declared.fault.LineFault.TheVariants.{NoMemory};
ghost use Rattle.std.specs.Prelude.{◌≡◌};

use ff_forms::SyntaxFault;
use ff_text::TextFault;
use std::alloc::{AllocError, AllocFailed};
use thiserror::Error;

/// What is wrong with a line of a trace, in the order in which the faults come. Places are in bytes
/// of the line, from 0.
#[derive(Clone, Copy, Debug, PartialEq, Eq, Error)]
pub enum LineFault {
    /// The line isn't a text of items.
    #[error("{0}")]
    Text(TextFault),
    /// The tag names no level.
    #[error("unknown level")]
    Level,
    /// There is no kind, or it is none of the seven words.
    #[error("unknown kind")]
    Kind,
    /// A wrong number of items follows the kind.
    #[error("wrong count")]
    Count,
    /// A part that should be a number isn't one.
    #[error("bad number")]
    Number,
    /// A part that should be an address or a domain isn't one.
    #[error("bad address")]
    Url,
    /// A part that should be a string or a response isn't one.
    #[error("{0}")]
    Syntax(SyntaxFault),
    /// There was no memory.
    #[error("out of memory")]
    NoMemory,
}

impl From<AllocError> for LineFault {
    ghost from_gives = { λ _ fault. fault ≡ NoMemory };

    fn from(_refused: AllocError) -> LineFault {
        LineFault::NoMemory
    }
}

impl<T: Drop> From<AllocFailed<T>> for LineFault {
    ghost from_gives = { λ _ fault. fault ≡ NoMemory };

    fn from(_refused: AllocFailed<T>) -> LineFault {
        LineFault::NoMemory
    }
}
