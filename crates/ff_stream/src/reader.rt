//! What reads a line.
ghost use Rattle.std.specs.Prelude.{◌≡◌, ◌≤◌, ℕ, List, Option, Result, length, IfOk};

use crate::NoMemory;
use ff_io::MOST_LINE_BYTES;
use std::alloc::Global;

/// What reads a line by itself, whatever stands before it.
pub trait Reader {
    /// What a line gives.
    type Item: Drop;

    /// What is wrong with a line that is refused.
    type Fault: Copy;

    /// Memory that the reading of one line leaves to that of the next. What a line gives doesn't
    /// depend on it.
    type Room: Drop;

    // What a line gives: an item, none as a blank line does, or what is wrong with it.
    ghost gives: { Self → List ℕ → Result (Option Self.Item) Self.Fault → Type 0 };

    /// Room for the first line.
    fn room(&self, alloc: Global) -> Self::Room;

    /// Reads a line of at most [`MOST_LINE_BYTES`] bytes, without its newline.
    ///
    /// # Errors
    ///
    /// Want of memory; what is wrong with a line is a good answer.
    fn read(
        &self,
        alloc: Global,
        room: &mut Self::Room,
        line: &[u8],
    ) -> Result<Result<Option<Self::Item>, Self::Fault>, NoMemory>
        requires { length line.now ≤ MOST_LINE_BYTES }
        ensures { IfOk result (gives self.now line.now) };

    // A line gives one answer.
    ghost once: { (reader : Self) (line : List ℕ) (a b : Result (Option Self.Item) Self.Fault)
        → gives reader line a → gives reader line b → a ≡ b };
}
