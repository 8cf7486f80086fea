//! A sink in memory.
ghost use Rattle.std.specs.Prelude.{◌≡◌, ◌≤◌, ◌<◌, Some, length, Contains, IsErr, IfOk, OnOk, OnErr, []};
ghost use Rattle.ff_io.specs.Counts.{next_count as next_count_of, HasCause};
ghost use Rattle.ff_io.specs.Port.{Gains, bytes_of};
ghost use Rattle.ff_io.specs.Memory.{fresh_sink, after_put, after_bad_put};

use super::counts::{fail, next_count};
use super::outside::{Failed, Sink};
use std::alloc::Global;
use std::marker::Model;

/// A sink in memory. A write takes all of its piece. Writes are numbered from 1, and the listed
/// ones fail; so does one that finds no memory for what it keeps.
#[derive(Drop)]
pub struct MemSink {
    put: Vec<u8>,
    bad_writes: Vec<u64>,
    writes: u64,
    faults: u64,
}

impl Model for MemSink {
    ghost use Rattle.ff_io.specs.Memory.{SinkState};

    ghost Value = { SinkState };

    ghost view = { λ s. record {
      put = s.put.items;
      bad_writes = s.bad_writes.items;
      writes = s.writes;
      faults = s.faults;
    } };
}

impl MemSink {
    /// A sink that nothing was put to, whose listed writes fail.
    pub fn new(alloc: Global, bad_writes: Vec<u64>) -> MemSink
        ensures fresh { result ≡ fresh_sink bad_writes.items }
        ensures put { result.put ≡ [] }
    {
        MemSink {
            put: Vec::new(alloc),
            bad_writes,
            writes: 0,
            faults: 0,
        }
    }

    /// The bytes put so far. It takes no memory.
    pub fn put_bytes(&self) -> &[u8]
        ensures { result.now ≡ self.now.put }
    {
        &self.put
    }
}

impl Sink for MemSink {
    ghost use Rattle.std.specs.Prelude.{Some, refl};

    ghost put = { λ s. Some s.put };

    ghost faults = { λ s. s.faults };

    ghost told = { λ s. record { put = Some s.put; faults = s.faults } };

    ghost tells = { λ s. refl };

    fn write(&mut self, piece: &[u8]) -> Result<usize, Failed>
        requires { 0 < length piece.now }
        ensures some { IfOk result (λ n. 0 < n) }
        ensures bound { IfOk result (λ n. n ≤ length piece.now) }
        ensures put { Gains (Some self.old.put) (Some self.new.put) (bytes_of result piece.now) }
        ensures cause { HasCause self.old.faults self.new.faults result }

        // Which writes fail, and that the others take all.
        ensures listed { Contains self.old.bad_writes (next_count_of self.old.writes)
            → IsErr result }
        ensures failed { OnErr result (self.new ≡ after_bad_put self.old) }
        ensures good { OnOk result (self.new ≡ after_put self.old piece.now) }
        ensures size { IfOk result (λ n. n ≡ length piece.now) }
    {
        self.writes = next_count(self.writes);
        if self.bad_writes.contains(&self.writes) {
            return fail(&mut self.faults);
        }
        match self.put.extend_from_slice(piece) {
            Ok(()) => Ok(piece.len()),
            Err(_) => fail(&mut self.faults),
        }
    }
}
