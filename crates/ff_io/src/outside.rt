//! What a program needs of the outside, as three traits.
ghost use Rattle.std.specs.Prelude.{◌≡◌, ℕ, ◌<◌, ◌≤◌, List, [], ◌∷◌, Option, length, IfOk, OnOk};
ghost use Rattle.ff_io.specs.Pieces.{Piece};
ghost use Rattle.ff_io.specs.Counts.{HasCause};
ghost use Rattle.ff_io.specs.Port.{Told, SinkTold, Adds, Leaves, Gains, AtEnd, bytes_of, pieces_got, pieces_put};
ghost use Rattle.ff_io.specs.Shelf.{Fetch, Files, ShelfTold, Gives, Notes, came_of, fetched};

use thiserror::Error;

/// A call of the outside failed. The count of faults for that kind of call rose.
#[derive(Clone, Copy, Debug, PartialEq, Eq, Error)]
#[error("a call of the outside failed")]
pub struct Failed;

/// A place that bytes are got from and put to, as standard input and output.
pub trait Port {
    // The pieces got and put so far, where they are told.
    ghost log: { Self → Option (List Piece) };

    // The bytes still to come, where they are told.
    ghost rest: { Self → Option (List ℕ) };

    // How many reads failed; it stands still at 2 ^ 64 - 1.
    ghost read_faults: { Self → ℕ };

    // How many writes failed; it stands still at 2 ^ 64 - 1.
    ghost write_faults: { Self → ℕ };

    // All of this.
    ghost told: { Self → Told };

    /// Gets bytes into the front of `into`, which isn't empty, and answers how many.
    /// `Ok(0)` is the end.
    ///
    /// # Errors
    ///
    /// `Failed` where the outside gives no byte; log and rest are as they were.
    fn read(&mut self, into: &mut [u8]) -> Result<usize, Failed>
        requires { 0 < length into.old }
        ensures bound { IfOk result (λ n. n ≤ length into.new) }
        ensures log { Adds (log self.old) (log self.new) (pieces_got result into.new) }
        ensures rest { Leaves (rest self.old) (rest self.new) (bytes_of result into.new) }
        ensures end { AtEnd (pieces_got result into.new) (rest self.new) }
        ensures cause { HasCause (read_faults self.old) (read_faults self.new) result }
        ensures others { write_faults self.new ≡ write_faults self.old };

    /// Puts some bytes of the front of `piece`, which isn't empty, and answers how many: at least
    /// one.
    ///
    /// # Errors
    ///
    /// `Failed` where the outside takes no byte; the log is as it was.
    fn write(&mut self, piece: &[u8]) -> Result<usize, Failed>
        requires { 0 < length piece.now }
        ensures some { IfOk result (λ n. 0 < n) }
        ensures bound { IfOk result (λ n. n ≤ length piece.now) }
        ensures log { Adds (log self.old) (log self.new) (pieces_put result piece.now) }
        ensures rest { rest self.new ≡ rest self.old }
        ensures cause { HasCause (write_faults self.old) (write_faults self.new) result }
        ensures others { read_faults self.new ≡ read_faults self.old };

    // That it is all of this.
    ghost tells: { (port : Self) → told port
        ≡ record {
          log = log port;
          rest = rest port;
          read_faults = read_faults port;
          write_faults =
              write_faults port;
        } };
}

/// A place that bytes are put to alone, as standard error.
pub trait Sink {
    // The bytes put so far, where they are told.
    ghost put: { Self → Option (List ℕ) };

    // How many writes failed; it stands still at 2 ^ 64 - 1.
    ghost faults: { Self → ℕ };

    // Both.
    ghost told: { Self → SinkTold };

    /// Puts some bytes of the front of `piece`, which isn't empty, and answers how many: at least
    /// one.
    ///
    /// # Errors
    ///
    /// `Failed` where the outside takes no byte; what was put is as it was.
    fn write(&mut self, piece: &[u8]) -> Result<usize, Failed>
        requires { 0 < length piece.now }
        ensures some { IfOk result (λ n. 0 < n) }
        ensures bound { IfOk result (λ n. n ≤ length piece.now) }
        ensures put { Gains (put self.old) (put self.new) (bytes_of result piece.now) }
        ensures cause { HasCause (faults self.old) (faults self.new) result };

    // That it is both.
    ghost tells: { (sink : Self) → told sink ≡ record { put = put sink; faults = faults sink } };
}

/// A place that holds files by their names.
pub trait Shelf {
    // The files by their names, where they are told.
    ghost files: { Self → Option Files };

    // The fetches so far, where they are told: those that failed, too.
    ghost fetches: { Self → Option (List Fetch) };

    // How many fetches failed that count for a name; it stands still at 2 ^ 64 - 1.
    ghost faults: { Self → List ℕ → ℕ };

    // All of this.
    ghost told: { Self → ShelfTold };

    /// Gets bytes of the named file, from offset `at` in bytes, into the front of `into`,
    /// which isn't empty, and answers how many. `Ok(0)` comes only where the file ends
    /// at or before `at`.
    ///
    /// # Errors
    ///
    /// `Failed` where the file isn't there or the outside gives no byte.
    fn fetch(&mut self, name: &str, at: u64, into: &mut [u8]) -> Result<usize, Failed>
        requires { 0 < length into.old }
        ensures bound { IfOk result (λ n. n ≤ length into.new) }
        ensures bytes { Gives (files self.old) name.now at result into.new }
        ensures files { files self.new ≡ files self.old }
        ensures fetches { Notes (fetches self.old) (fetches self.new)
            (fetched name.now at (came_of result into.new) ∷ []) }
        ensures cause { HasCause (faults self.old name.now) (faults self.new name.now) result }
        ensures later { (other : List ℕ) → faults self.old other ≤ faults self.new other }
        ensures good { OnOk result ((other : List ℕ)
            → faults self.new other ≡ faults self.old other) };

    // That it is all of this.
    ghost tells: { (shelf : Self) → told shelf
        ≡ record { files = files shelf; fetches = fetches shelf; faults = faults shelf } };
}
