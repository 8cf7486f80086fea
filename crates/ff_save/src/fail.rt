ghost use Rattle.ff_save.specs.declared.fail.SavedFail.TheVariants.{NoMemory};
ghost use Rattle.std.specs.Prelude.{◌≡◌};

use ff_saved_rows::SavedFault;
use std::alloc::{AllocError, AllocFailed};

/// Why there is no pool: what is wrong with the bytes, or want of memory.
#[derive(Clone, Copy, Debug, PartialEq, Eq)]
pub enum SavedFail {
    /// The bytes are no saved text under the policy.
    Fault(SavedFault),
    /// There was no memory.
    NoMemory,
}

impl From<AllocError> for SavedFail {
    ghost from_gives = { λ _ fail. fail ≡ NoMemory };

    fn from(_refused: AllocError) -> SavedFail {
        SavedFail::NoMemory
    }
}

impl<T: Drop> From<AllocFailed<T>> for SavedFail {
    ghost from_gives = { λ _ fail. fail ≡ NoMemory };

    fn from(_refused: AllocFailed<T>) -> SavedFail {
        SavedFail::NoMemory
    }
}
