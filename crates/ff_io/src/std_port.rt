//! Standard input and output as a port.
ghost use Rattle.std.specs.Prelude.{◌≡◌, Some, []};

use super::counts::fail;
use super::journal::Journal;
use super::outside::{Failed, Port};
use super::retry::{read_retrying, write_retrying};
use std::io::{Input, Print};

/// Standard input and output. It tells its log, the pieces that its reads handed out and its writes
/// took, and not what is still to come. An error counts as a fault, and so does a write that takes
/// nothing; an interrupted read or write is tried again.
pub struct StdPort<'a, R: Input + Print> {
    runtime: &'a R,
    reader: R::Reader,
    journal: Journal,
    read_faults: u64,
    write_faults: u64,
}

impl<R: Input + Print> Drop for StdPort<'_, R> {
    fn drop(self) {
        let StdPort {
            runtime: _,
            reader: _,
            journal: _,
            read_faults: _,
            write_faults: _,
        } = self;
    }
}

impl<'a, R: Input + Print> StdPort<'a, R> {
    /// The port of this runtime, with no piece and no fault yet.
    pub fn new(rt: &'a R) -> StdPort<'a, R>
        ensures log { ⟦<StdPort<'a, R> as Port>⟧.log result ≡ Some [] }
        ensures reads { ⟦<StdPort<'a, R> as Port>⟧.read_faults result ≡ 0 }
        ensures writes { ⟦<StdPort<'a, R> as Port>⟧.write_faults result ≡ 0 }
    {
        StdPort {
            runtime: rt,
            reader: rt.reader(),
            journal: Journal::new(),
            read_faults: 0,
            write_faults: 0,
        }
    }
}

impl<R: Input + Print> Port for StdPort<'_, R> {
    ghost use Rattle.std.specs.Prelude.{None, Some, refl};

    ghost log = { λ p. Some p.journal.pieces };

    ghost rest = { λ _. None };

    ghost read_faults = { λ p. p.read_faults };

    ghost write_faults = { λ p. p.write_faults };

    ghost told = { λ p. record {
      log = Some p.journal.pieces;
      rest = None;
      read_faults = p.read_faults;
      write_faults = p.write_faults;
    } };

    ghost tells = { λ p. refl };

    fn read(&mut self, into: &mut [u8]) -> Result<usize, Failed> {
        match read_retrying(&mut self.reader, into) {
            Ok(n) => {
                self.journal.got(&into[..n]);
                Ok(n)
            }
            Err(_) => fail(&mut self.read_faults),
        }
    }

    fn write(&mut self, piece: &[u8]) -> Result<usize, Failed> {
        match write_retrying(self.runtime, piece) {
            Ok(n) if n > 0 => {
                self.journal.put(&piece[..n]);
                Ok(n)
            }
            _ => fail(&mut self.write_faults),
        }
    }
}
