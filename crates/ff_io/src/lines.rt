//! The lines of the bytes that come from a port, one at a time.
ghost use Rattle.std.specs.Prelude.{◌≡◌, ◌≤◌, ◌<◌, ◌+◌, ◌^◌, ◌++◌, false, true, length, cond, IsErrOf, MatchOption};
ghost use Rattle.ff_io.specs.Counts.{Rose};
ghost use Rattle.ff_io.specs.Cutting.{has_newline, Fits};
ghost use Rattle.ff_io.specs.Following.{no_lines, Nexts};
ghost use Rattle.ff_io.specs.Gathering.{Gathers, Cuts, IsSizeFault};
ghost use Rattle.ff_io.specs.declared.lines.LineFail.TheVariants.{Read, NoMemory};

use super::chunk::{Chunk, move_line};
use super::outside::{Failed, Port};
use std::alloc::{AllocError, Global};
use std::marker::Model;
use std::mem;
use thiserror::Error;

/// What comes next of the lines.
#[derive(Debug, Drop)]
pub enum Next {
    /// A line, without the newline that ends it.
    Line(Vec<u8>),
    /// No line is left.
    End,
}

/// Why a line can't be given.
#[derive(Clone, Copy, Debug, PartialEq, Eq, Error)]
pub enum LineFail {
    /// It has more than [`MOST_LINE_BYTES`] bytes, without its newline.
    #[error("a line is too long")]
    TooLong,
    /// It has a byte that comes after the first [`MOST_TRACE_BYTES`] of all. Where one byte makes a
    /// line too long and comes after these too, this is the fault.
    #[error("the trace is too long")]
    TooMuch,
    /// A read failed.
    #[error("a read failed")]
    Read,
    /// There is no memory for the line.
    #[error("no memory for a line")]
    NoMemory,
}

impl From<Failed> for LineFail {
    ghost from_gives = { λ _ fail. fail ≡ Read };

    fn from(_failed: Failed) -> LineFail {
        LineFail::Read
    }
}

impl From<AllocError> for LineFail {
    ghost from_gives = { λ _ fail. fail ≡ NoMemory };

    fn from(_error: AllocError) -> LineFail {
        LineFail::NoMemory
    }
}

/// How many bytes a line may have at most, without its newline.
pub const MOST_LINE_BYTES: u64 = 4_194_304;

/// How many bytes all lines together may have at most, with their newlines.
pub const MOST_TRACE_BYTES: u64 = 4_294_967_295;

/// A reader of lines. A newline ends each line; the end of the port ends a last line without one.
/// It holds the bytes that were got and not yet given: those of one line, and of one read.
#[derive(Drop)]
pub struct Lines {
    alloc: Global,
    // Bytes without a newline; those of `chunk` come after them.
    line: Vec<u8>,
    chunk: Chunk,
    // How many bytes were given, newlines among them.
    given: u64,
    // Whether the end of the port was seen.
    ended: bool,
    failed: bool,
}

impl Model for Lines {
    ghost use Rattle.std.specs.Prelude.{◌≡◌, ◌≤◌, ◌++◌, false};
    ghost use Rattle.ff_io.specs.Cutting.{has_newline};
    ghost use Rattle.ff_io.specs.declared.lines.TheConstants.{MOST_TRACE_BYTES};
    ghost use Rattle.ff_io.specs.Following.{LinesState};

    ghost Value = { LinesState };

    ghost view = { λ l. record {
      held = l.line.items ++ l.chunk;
      given = l.given;
      ended = l.ended;
      failed = l.failed;
    } };

    ghost invariant = { λ l. l.failed ≡ false
        → (has_newline l.line.items ≡ false) × (l.given ≤ MOST_TRACE_BYTES) };
}

impl Lines {
    /// A reader that has read nothing.
    pub fn new(alloc: Global) -> Lines
        ensures { result ≡ no_lines }
    {
        Lines {
            alloc,
            line: Vec::new(alloc),
            chunk: Chunk::new(alloc),
            given: 0,
            ended: false,
            failed: false,
        }
    }

    /// Whether a call of `next` failed: no line is given any more.
    pub fn failed(&self) -> bool
        ensures { result ≡ self.now.failed }
    {
        self.failed
    }

    /// Gives the next line. It reads only while the bytes got hold no further whole line and fit,
    /// and asks for [`MOST_READ_BYTES`](crate::MOST_READ_BYTES) bytes each time.
    ///
    /// # Errors
    ///
    /// `TooLong` and `TooMuch` where the next line doesn't fit, also where its newline didn't come
    /// yet; `Read` where a read failed; `NoMemory` where there is none for the line. After each of
    /// them the reader has failed for good.
    pub fn next<P: Port>(&mut self, port: &mut P) -> Result<Next, LineFail>
        requires { self.old.failed ≡ false }
        ensures next { Nexts (P.log port.old) (P.log port.new) (P.rest port.old) (P.rest port.new)
            self.old self.new result }
        ensures later { P.read_faults port.old ≤ P.read_faults port.new }
        ensures cause { IsErrOf result LineFail.Read
            → Rose (P.read_faults port.old) (P.read_faults port.new) }
        ensures others { P.write_faults port.new ≡ P.write_faults port.old }
    {
        match gather(
            self.given,
            &mut self.line,
            &mut self.chunk,
            &mut self.ended,
            port,
        ) {
            Ok(whole) => {
                let size = size_with_newline(&self.line, whole);
                if size == 0 {
                    return Ok(Next::End);
                }
                self.given += size;
                Ok(Next::Line(mem::replace(&mut self.line, Vec::new(self.alloc))))
            }
            Err(fail) => {
                self.failed = true;
                Err(fail)
            }
        }
    }

    /// Takes back a line that was given, for the memory that it has: the next one is put there.
    pub fn take_back(&mut self, line: Vec<u8>)
        ensures { self.new ≡ self.old }
    {
        if self.line.is_empty() {
            let mut line = line;
            line.clear();
            self.line = line;
        }
    }
}

/// Reads until a line is whole, or the end was seen, and says whether it is whole.
fn gather<P: Port>(
    given: u64,
    line: &mut Vec<u8>,
    chunk: &mut Chunk,
    ended: &mut bool,
    port: &mut P,
) -> Result<bool, LineFail>
    requires none { has_newline line.old.items ≡ false }
    requires given { given ≤ MOST_TRACE_BYTES }
    ensures gathers { Gathers (P.log port.old) (P.log port.new) (P.rest port.old) (P.rest port.new)
        given
        (line.old.items ++ chunk.old) ended.old line.new.items chunk.new ended.new result }
    ensures later { P.read_faults port.old ≤ P.read_faults port.new }
    ensures cause { IsErrOf result LineFail.Read
        → Rose (P.read_faults port.old) (P.read_faults port.new) }
    ensures others { P.write_faults port.new ≡ P.write_faults port.old }
{
    let mut whole = cut(given, line, chunk)?;
    while !whole && !*ended {
        *ended = chunk.read(port)?;
        whole = cut(given, line, chunk)?;
    }
    Ok(whole)
}

/// Moves bytes from the chunk to the line up to its newline, says whether there was one, and checks
/// the size of the line.
fn cut(given: u64, line: &mut Vec<u8>, chunk: &mut Chunk) -> Result<bool, LineFail>
    requires none { has_newline line.old.items ≡ false }
    requires given { given ≤ MOST_TRACE_BYTES }
    ensures { Cuts given (line.old.items ++ chunk.old) line.new.items chunk.new result }
{
    let whole = move_line(chunk, line)?;
    match size_fault(given, line.len(), whole) {
        Some(fault) => Err(fault),
        None => Ok(whole),
    }
}

/// What is wrong with the size of a line, where something is.
fn size_fault(given: u64, size: usize, whole: bool) -> Option<LineFail>
    requires given { given ≤ MOST_TRACE_BYTES }
    requires size { size < 2 ^ 63 }
    ensures { MatchOption result (Fits size (given + (size + cond whole 1 0)))
        (IsSizeFault given size (given + (size + cond whole 1 0))) }
{
    let size = size as u64;
    if size > MOST_LINE_BYTES && given + MOST_LINE_BYTES < MOST_TRACE_BYTES {
        Some(LineFail::TooLong)
    } else if given + size + u64::from(whole) > MOST_TRACE_BYTES {
        Some(LineFail::TooMuch)
    } else {
        None
    }
}

/// How many bytes a line has, with its newline where it has one.
fn size_with_newline(line: &[u8], whole: bool) -> u64
    ensures { result ≡ length line.now + cond whole 1 0 }
{
    line.len() as u64 + u64::from(whole)
}
