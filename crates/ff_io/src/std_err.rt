//! Standard error as a sink.
ghost use Rattle.std.specs.Prelude.{◌≡◌, Some, []};

use super::counts::fail;
use super::journal::Journal;
use super::outside::{Failed, Sink};
use std::io::Eprint;
use std::str;

/// Standard error. It tells what was put to it. An error counts as a fault, and so does a piece
/// that isn't UTF-8, since the runtime takes text alone.
#[derive(Drop)]
pub struct StdErr<'a, R: Eprint> {
    runtime: &'a R,
    journal: Journal,
    faults: u64,
}

impl<'a, R: Eprint> StdErr<'a, R> {
    /// The standard error of this runtime, with nothing put and no fault yet.
    pub fn new(rt: &'a R) -> StdErr<'a, R>
        ensures put { ⟦<StdErr<'a, R> as Sink>⟧.put result ≡ Some [] }
        ensures faults { ⟦<StdErr<'a, R> as Sink>⟧.faults result ≡ 0 }
    {
        StdErr {
            runtime: rt,
            journal: Journal::new(),
            faults: 0,
        }
    }
}

impl<R: Eprint> Sink for StdErr<'_, R> {
    ghost use Rattle.std.specs.Prelude.{Some, refl};
    ghost use Rattle.ff_io.specs.Pieces.{put_of};

    ghost put = { λ s. Some (put_of s.journal.pieces) };

    ghost faults = { λ s. s.faults };

    ghost told = { λ s. record { put = Some (put_of s.journal.pieces); faults = s.faults } };

    ghost tells = { λ s. refl };

    fn write(&mut self, piece: &[u8]) -> Result<usize, Failed> {
        let Ok(text) = str::from_utf8(piece) else {
            return fail(&mut self.faults);
        };
        match self.runtime.eprint(text) {
            Ok(()) => {
                self.journal.put(piece);
                Ok(piece.len())
            }
            Err(_) => fail(&mut self.faults),
        }
    }
}
