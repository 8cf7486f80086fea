// What a list needs of its cells.
ghost use Rattle.std.specs.Prelude.{◌≡◌, ◌+◌, IfOk};

use ff_contract::Steps;
use std::alloc::AllocError;
use std::sync::ledger::Ledger;

/// Want of memory.
pub type NoMemory = AllocError;

/// A value that a shared list can hold: it can be copied, and each copy is counted.
pub trait Cell<C: Ledger>: Sized + Drop {
    /// An equal cell. It ticks `copies` once, also where it answers `NoMemory`.
    fn copy(&self, copies: &mut Steps<C>) -> Result<Self, NoMemory>
        ensures value { IfOk result (λ cell. cell ≡ self.now) }
        ensures count { copies.new ≡ copies.old + 1 };
}
