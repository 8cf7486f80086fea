//! A port in memory.
ghost use Rattle.std.specs.Prelude.{◌≡◌, ◌≤◌, ◌<◌, ◌++◌, [], ◌∷◌, Some, take, drop, length, min, Contains, IsErr, IfOk, OnErr};
ghost use Rattle.ff_io.specs.Counts.{next_count as next_count_of, HasCause};
ghost use Rattle.ff_io.specs.Pieces.{got_of, put_of};
ghost use Rattle.ff_io.specs.Pieces.Piece.{Got, Put};
ghost use Rattle.ff_io.specs.Port.{Adds, Leaves, AtEnd, bytes_of, pieces_got, pieces_put};
ghost use Rattle.ff_io.specs.Pending.{nonempty, joined, byte_lists, front_piece, without_front};
ghost use Rattle.ff_io.specs.Memory.{fresh_port, after_read, after_bad_read, after_write, after_bad_write};

use super::counts::{fail, next_count};
use super::outside::{Failed, Port};
use super::source::Source;
use super::tape::Tape;
use crate::NoMemory;
use std::alloc::Global;
use std::marker::Model;

/// A port in memory. A read skips empty pieces, and gives as many bytes of the current piece as
/// fit and none of the next one. A write takes at most `grain` bytes. Reads and writes are
/// numbered from 1, each kind by itself, and the listed ones fail; so does one that finds no
/// memory for what it keeps.
#[derive(Drop)]
pub struct MemPort {
    source: Source,
    tape: Tape,
    bad_reads: Vec<u64>,
    bad_writes: Vec<u64>,
    grain: usize,
    reads: u64,
    writes: u64,
    read_faults: u64,
    write_faults: u64,
}

impl Model for MemPort {
    ghost use Rattle.std.specs.Prelude.{◌≤◌};
    ghost use Rattle.ff_io.specs.Memory.{PortState};

    ghost Value = { PortState };

    ghost view = { λ p. record {
      pieces = p.source;
      log = p.tape;
      bad_reads = p.bad_reads.items;
      bad_writes = p.bad_writes.items;
      grain = p.grain;
      reads = p.reads;
      writes = p.writes;
      read_faults = p.read_faults;
      write_faults = p.write_faults;
    } };

    ghost invariant = { λ p. 1 ≤ p.grain };
}

impl MemPort {
    /// A port that gives `pieces` in their order, whose listed reads and writes fail, and whose
    /// writes take at most `grain` bytes.
    pub fn new(
        alloc: Global,
        pieces: Vec<Vec<u8>>,
        bad_reads: Vec<u64>,
        bad_writes: Vec<u64>,
        grain: usize,
    ) -> MemPort
        requires { 1 ≤ grain }
        ensures fresh { result ≡ fresh_port (nonempty (byte_lists pieces.items)) bad_reads.items
            bad_writes.items grain }
        ensures log { result.log ≡ [] }
        ensures rest { joined result.pieces ≡ joined (byte_lists pieces.items) }
    {
        MemPort {
            source: Source::new(pieces),
            tape: Tape::new(alloc),
            bad_reads,
            bad_writes,
            grain,
            reads: 0,
            writes: 0,
            read_faults: 0,
            write_faults: 0,
        }
    }

    /// The bytes got so far, joined. It takes no memory.
    pub fn got_bytes(&self) -> &[u8]
        ensures { result.now ≡ got_of self.now.log }
    {
        self.tape.got()
    }

    /// The bytes put so far, joined. It takes no memory.
    pub fn put_bytes(&self) -> &[u8]
        ensures { result.now ≡ put_of self.now.log }
    {
        self.tape.put()
    }
}

impl Port for MemPort {
    ghost use Rattle.std.specs.Prelude.{Some, refl};
    ghost use Rattle.ff_io.specs.Pending.{joined};

    ghost log = { λ p. Some p.log };

    ghost rest = { λ p. Some (joined p.pieces) };

    ghost read_faults = { λ p. p.read_faults };

    ghost write_faults = { λ p. p.write_faults };

    ghost told = { λ p. record {
      log = Some p.log;
      rest = Some (joined p.pieces);
      read_faults =
          p.read_faults;
      write_faults = p.write_faults;
    } };

    ghost tells = { λ p. refl };

    fn read(&mut self, into: &mut [u8]) -> Result<usize, Failed>
        requires { 0 < length into.old }
        ensures bound { IfOk result (λ n. n ≤ length into.new) }
        ensures log { Adds (Some self.old.log) (Some self.new.log) (pieces_got result into.new) }
        ensures rest { Leaves (Some (joined self.old.pieces)) (Some (joined self.new.pieces))
            (bytes_of result into.new) }
        ensures end { AtEnd (pieces_got result into.new) (Some (joined self.new.pieces)) }
        ensures cause { HasCause self.old.read_faults self.new.read_faults result }
        ensures others { self.new.write_faults ≡ self.old.write_faults }

        // Which reads fail, and what the others give.
        ensures listed { Contains self.old.bad_reads (next_count_of self.old.reads) → IsErr result }
        ensures failed { OnErr result (self.new ≡ after_bad_read self.old) }
        ensures good { IfOk result (λ n. self.new ≡ after_read self.old n) }
        ensures size { IfOk result (λ n. n ≡ min (length into.old)
            (length (front_piece self.old.pieces))) }
        ensures bytes { IfOk result (λ n. into.new
            ≡ take n (front_piece self.old.pieces) ++ drop n into.old) }
    {
        self.reads = next_count(self.reads);
        if self.bad_reads.contains(&self.reads) {
            return fail(&mut self.read_faults);
        }
        match get_piece(&mut self.source, &mut self.tape, into) {
            Ok(n) => Ok(n),
            Err(_) => fail(&mut self.read_faults),
        }
    }

    fn write(&mut self, piece: &[u8]) -> Result<usize, Failed>
        requires { 0 < length piece.now }
        ensures some { IfOk result (λ n. 0 < n) }
        ensures bound { IfOk result (λ n. n ≤ length piece.now) }
        ensures log { Adds (Some self.old.log) (Some self.new.log) (pieces_put result piece.now) }
        ensures rest { Some (joined self.new.pieces) ≡ Some (joined self.old.pieces) }
        ensures cause { HasCause self.old.write_faults self.new.write_faults result }
        ensures others { self.new.read_faults ≡ self.old.read_faults }

        // Which writes fail, and what the others take.
        ensures listed { Contains self.old.bad_writes (next_count_of self.old.writes)
            → IsErr result }
        ensures failed { OnErr result (self.new ≡ after_bad_write self.old) }
        ensures good { IfOk result (λ n. self.new ≡ after_write self.old (take n piece.now)) }
        ensures size { IfOk result (λ n. n ≡ min self.old.grain (length piece.now)) }
    {
        self.writes = next_count(self.writes);
        if self.bad_writes.contains(&self.writes) {
            return fail(&mut self.write_faults);
        }
        let n = self.grain.min(piece.len());
        match self.tape.keep_put(&piece[..n]) {
            Ok(()) => Ok(n),
            Err(_) => fail(&mut self.write_faults),
        }
    }
}

/// Gives bytes of the first piece and keeps them on the tape. Where there is no memory for them,
/// nothing changes.
fn get_piece(source: &mut Source, tape: &mut Tape, into: &mut [u8]) -> Result<usize, NoMemory>
    requires { 0 < length into.old }
    ensures size { IfOk result (λ n. n ≡ min (length into.old) (length (front_piece source.old))) }
    ensures bytes { IfOk result (λ n. into.new
        ≡ take n (front_piece source.old) ++ drop n into.old) }
    ensures source { IfOk result (λ n. source.new ≡ without_front n source.old) }
    ensures tape { IfOk result (λ n. tape.new
        ≡ tape.old ++ Got (take n (front_piece source.old)) ∷ []) }
    ensures end { IfOk result (λ n. n ≡ 0 → source.old ≡ []) }
    ensures kept { OnErr result ((source.new ≡ source.old) × (tape.new ≡ tape.old)) }
{
    let front = source.front();
    let n = front.len().min(into.len());
    tape.keep_got(&front[..n])?;
    into[..n].copy_from_slice(&front[..n]);
    source.advance(n);
    Ok(n)
}
