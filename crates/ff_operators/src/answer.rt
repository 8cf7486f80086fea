ghost use Rattle.std.specs.Prelude.{◌≡◌};

use ff_value::{Fault, NoMemory, Val};

/// What an operator gave.
#[derive(Debug, Drop)]
pub struct Applied {
    /// The result.
    pub value: Val,
    /// The mass after it, in bytes: what was made counts.
    pub mass: u64,
}

impl Applied {
    /// The value, for which the mass stays as it is.
    pub(crate) fn free(value: Val, mass: u64) -> Applied
        ensures { result ≡ record { value = value; mass = mass } }
    {
        Applied { value, mass }
    }
}

/// Why a call on values or stores failed: by a fault of the script, or for want of memory.
#[derive(Clone, Copy, Debug, PartialEq, Eq)]
pub enum Fail {
    /// The operands give no result.
    Fault(Fault),
    /// There is no memory for the result.
    NoMemory,
}

impl From<NoMemory> for Fail {
    ghost use Rattle.std.specs.Prelude.{◌≡◌};
    ghost use Rattle.ff_operators.specs.declared.answer.Fail.TheVariants as fail;

    ghost from_gives = { λ _ f. f ≡ fail.NoMemory };

    fn from(_refused: NoMemory) -> Fail {
        Fail::NoMemory
    }
}

/// Hands on what a call on a part answered, which may have been refused by a fault. Where it lacked
/// memory, the part may be half changed: then `emptying`, which puts an empty whole in the place of
/// the whole, is done first.
#[macro_export]
macro_rules! fault_or_emptied {
    ($answer:expr, $emptying:expr) => {
        match $answer {
            Ok(done) => Ok(done),
            Err($crate::Fail::Fault(fault)) => Err($crate::Fail::Fault(fault)),
            Err($crate::Fail::NoMemory) => {
                $emptying;
                Err($crate::Fail::NoMemory)
            }
        }
    };
}

/// The same of a call that is refused only for want of memory.
#[macro_export]
macro_rules! or_emptied {
    ($answer:expr, $emptying:expr) => {
        match $answer {
            Ok(done) => Ok(done),
            Err(refused) => {
                $emptying;
                Err(refused)
            }
        }
    };
}
