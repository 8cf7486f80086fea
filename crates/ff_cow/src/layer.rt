// One layer of the tree. A node of it is seen as the list of the cells below it.
ghost use Rattle.std.specs.Prelude.{◌≡◌, ℕ, ◌+◌, ◌<◌, ◌≤◌, [], ◌∷◌, ◌++◌, List, length, IfOk, IfErr, OnOk, OnErr, slice_get};
ghost use Rattle.ff_contract.specs.Rises.{RisesBy};
ghost use Rattle.ff_cow.specs.Edits.{edited_at};

use crate::cell::{Cell, NoMemory};
use crate::edit::Edit;
use ff_contract::Steps;
use std::alloc::Global;
use std::sync::ledger::Ledger;

/// How many cells a leaf has room for, and how many nodes a branch has room for.
pub(crate) const WIDTH: usize = 16;

/// A node that can be read. `capacity` is how many cells a full node of this layer has; a caller
/// passes it down as `room`.
pub(crate) trait Layer<V>: Sized {
    ghost capacity: { ℕ };

    ghost cells: { Self → List V };

    ghost is_valid: { Self → Type 0 };

    /// A node with no cells. It takes no memory.
    fn empty(alloc: Global) -> Self
        ensures cells { cells result ≡ [] }
        ensures valid { is_valid result };

    /// The cell at `i`.
    fn at(&self, i: usize, room: usize) -> &V
        requires valid { is_valid self.now }
        requires room { room ≡ capacity }
        requires within { i < length (cells self.now) }
        ensures { slice_get (cells self.now) i ≡ Some result.now };
}

/// A node that can be written. `copied` is how many cells a copy of a node with these cells copies.
pub(crate) trait Writable<V>: Layer<V> + Drop {
    ghost copied: { List V → ℕ };

    /// A node with equal cells.
    fn duplicate<C: Ledger>(&self, alloc: Global, copies: &mut Steps<C>) -> Result<Self, NoMemory>
    where
        V: Cell<C>,
        requires valid { Self.is_valid self.now }
        ensures cells { IfOk result (λ node. Self.cells node ≡ Self.cells self.now) }
        ensures valid { IfOk result (λ node. Self.is_valid node) }
        ensures copies { RisesBy (copied (Self.cells self.now)) copies.old copies.new };

    /// Changes the cell at `i` where it lies. Want of memory gives the change back and leaves the
    /// cells as they were.
    fn edit<E: Edit<V>, C: Ledger>(
        &mut self,
        i: usize,
        room: usize,
        edit: E,
        alloc: Global,
        copies: &mut Steps<C>,
    ) -> Result<(), E>
    where
        V: Cell<C>,
        requires valid { Self.is_valid self.old }
        requires room { room ≡ Self.capacity }
        requires within { i < length (Self.cells self.old) }
        ensures done { OnOk result (Self.cells self.new
            ≡ edited_at (E.edited edit) i (Self.cells self.old)) }
        ensures kept { OnErr result (Self.cells self.new ≡ Self.cells self.old) }
        ensures returned { IfErr result (λ back. back ≡ edit) }
        ensures valid { Self.is_valid self.new }
        ensures later { copies.old ≤ copies.new }
        ensures copies { copies.new + copied (Self.cells self.old) ≤ copies.old + 16 };

    /// Puts a cell behind the `count` cells that the node has. Want of memory gives the value back
    /// and leaves the cells as they were.
    fn push<C: Ledger>(
        &mut self,
        count: usize,
        room: usize,
        value: V,
        alloc: Global,
        copies: &mut Steps<C>,
    ) -> Result<(), V>
    where
        V: Cell<C>,
        requires valid { Self.is_valid self.old }
        requires room { room ≡ Self.capacity }
        requires count { count ≡ length (Self.cells self.old) }
        requires space { count < room }
        ensures done { OnOk result (Self.cells self.new ≡ Self.cells self.old ++ value ∷ []) }
        ensures kept { OnErr result (Self.cells self.new ≡ Self.cells self.old) }
        ensures returned { IfErr result (λ back. back ≡ value) }
        ensures valid { Self.is_valid self.new }
        ensures later { copies.old ≤ copies.new }
        ensures copies { copies.new + copied (Self.cells self.old) ≤ copies.old + 15 };

    // what `edit` and `push` may count together with a copy of the node before them
    ghost few: { (node : Self) → Self.is_valid node → copied (Self.cells node) ≤ 16 };

    ghost fewer: { (node : Self) → Self.is_valid node → length (Self.cells node) < Self.capacity
        → copied (Self.cells node) ≤ 15 };
}
