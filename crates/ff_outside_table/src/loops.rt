//! The loop over the lines of a trace, for a reader and a taker of its own.
ghost use Rattle.std.specs.Prelude.{◌≡◌, ◌<◌};

use super::given::{long_port, port_of, text_of};
use ff_contract::Steps;
use ff_io::{Failed, MemPort, Port};
use ff_stream::{End, Reader, Taker, stream};
use std::alloc::{AllocError, Global};
use std::io;
use std::marker::Brand;
use std::sync::ledger::{Blank, Ledger};

/// Gives the first byte of each line of at most three bytes, and refuses a longer one by its
/// length.
#[derive(Clone, Copy)]
struct Firsts;

impl Reader for Firsts {
    ghost use Rattle.std.specs.Prelude.{◌≡◌, nat_le, length, slice_get, Ok, Err, if◌then◌else◌};
    ghost use Rattle.std.proofs.Common.{◌∙◌, sym};

    type Item = u8;

    type Fault = usize;

    type Room = ();

    ghost gives = { λ reader line answer.
        answer ≡ (if nat_le (length line) 3 then Ok (slice_get line 0) else Err (length line)) };

    fn room(&self, _alloc: Global) {}

    fn read(
        &self,
        _alloc: Global,
        _room: &mut (),
        line: &[u8],
    ) -> Result<Result<Option<u8>, usize>, AllocError> {
        if line.len() <= 3 {
            Ok(Ok(line.first().copied()))
        } else {
            Ok(Err(line.len()))
        }
    }

    ghost once = { λ reader line a b is_a is_b. is_a ∙ sym is_b };
}

/// Keeps the bytes that it takes, and writes each behind those before it, on a line.
#[derive(Clone, Copy)]
struct Growing;

impl Taker for Growing {
    ghost use Rattle.std.specs.Prelude.{◌≡◌, ◌++◌, ◌∷◌, [], ⊤, length};

    type Item = u8;

    type State = Vec<u8>;

    ghost accepts = { λ taker byte. ⊤ };

    ghost entry = { λ taker start bytes byte. bytes ++ byte ∷ 10 ∷ [] };

    ghost turns_due = { λ taker start bytes byte. 1 };

    ghost is_at = { λ taker start state bytes. state.items ≡ bytes };

    ghost copies_none = { λ taker. ⊤ };

    fn take<C: Ledger, L: Ledger>(
        &self,
        _alloc: Global,
        state: &mut Vec<u8>,
        item: &u8,
        text: &mut Vec<u8>,
        _copies: &mut Steps<C>,
        turns: &mut Steps<L>,
    ) -> Result<(), AllocError> {
        text.extend_from_slice(state)?;
        text.push(*item)?;
        text.push(b'\n')?;
        state.push(*item)?;
        turns.tick();
        Ok(())
    }
}

/// A port that notes for each read how many bytes it asks for and how many were put before.
#[derive(Drop)]
struct Noting {
    port: MemPort,
    reads: Vec<(usize, usize)>,
    noted: bool,
}

impl Port for Noting {
    ghost use Rattle.std.specs.Prelude.{None, refl};

    ghost log = { λ noting. None };

    ghost rest = { λ noting. None };

    ghost read_faults = { λ noting. noting.port.read_faults };

    ghost write_faults = { λ noting. noting.port.write_faults };

    ghost told = { λ noting. record {
      log = None;
      rest = None;
      read_faults =
          noting.port.read_faults;
      write_faults = noting.port.write_faults;
    } };

    ghost tells = { λ noting. refl };

    fn read(&mut self, into: &mut [u8]) -> Result<usize, Failed> {
        let read = (into.len(), self.port.put_bytes().len());
        self.noted &= self.reads.push(read).is_ok();
        self.port.read(into)
    }

    fn write(&mut self, piece: &[u8]) -> Result<usize, Failed> {
        self.port.write(piece)
    }
}

/// Goes through a trace, and answers how it ended and which bytes were taken.
fn go<C: Ledger, L: Ledger, P: Port>(
    alloc: Global,
    port: &mut P,
    copies: Blank,
    turns: Blank,
) -> (End<usize>, Vec<u8>)
    requires copies_name { copies.name ≡ C.name }
    requires copies_parts { copies.parts ≡ C.parts }
    requires some_copies { 0 < copies.parts }
    requires name { turns.name ≡ L.name }
    requires parts { turns.parts ≡ L.parts }
    requires some { 0 < turns.parts }
{
    let mut copies = Steps::<C>::new(copies);
    let mut counted = Steps::<L>::new(turns);
    let mut taken = Vec::new(alloc);
    let end = stream(
        alloc,
        &Firsts,
        &Growing,
        &mut taken,
        port,
        &mut copies,
        &mut counted,
    );
    (end, taken)
}

/// Goes through a trace with counters of its own.
fn went<P: Port>(alloc: Global, port: &mut P) -> (End<usize>, Vec<u8>) {
    go::<Brand, Brand, P>(alloc, port, Blank::new(1), Blank::new(1))
}

/// Prints how the loop over a port ends.
fn show_loop(rt: &HostRuntime, port: &mut MemPort) -> io::Result<()> {
    let (end, taken) = went(rt.alloc(), port);
    let put = text_of(port.put_bytes());
    println!(rt; "  {end:?}, taken {:?}, put {put:?}", text_of(&taken))
}

fn show_traces(rt: &HostRuntime) -> io::Result<()> {
    let cases: [&[&str]; 5] = [
        &[],
        &["ax\nb", "y", "\n\nc"],
        &["a\nlong\nb\n"],
        &["\na\nlong"],
        &["axy\nbxyz\n"],
    ];
    for pieces in cases {
        println!(rt; "{pieces:?}")?;
        show_loop(rt, &mut port_of(rt.alloc(), pieces, &[], &[])?)?;
    }
    Ok(())
}

fn show_limits(rt: &HostRuntime) -> io::Result<()> {
    for letters in [4_194_304, 4_194_305] {
        println!(rt; "an empty line and one of {letters} letters")?;
        show_loop(rt, &mut long_port(rt.alloc(), "\n", letters, "\n")?)?;
    }
    Ok(())
}

const FOUR_LINES: [&str; 3] = ["a\nb", "\nc\n", "d"];

fn show_failing_reads(rt: &HostRuntime) -> io::Result<()> {
    for number in 1..6 {
        println!(rt; "read {number} fails")?;
        show_loop(rt, &mut port_of(rt.alloc(), &FOUR_LINES, &[number], &[])?)?;
    }
    Ok(())
}

fn show_failing_writes(rt: &HostRuntime) -> io::Result<()> {
    for number in 1..10 {
        println!(rt; "write {number} fails")?;
        show_loop(rt, &mut port_of(rt.alloc(), &FOUR_LINES, &[], &[number])?)?;
    }
    Ok(())
}

fn show_noted(rt: &HostRuntime) -> io::Result<()> {
    let mut port = Noting {
        port: port_of(rt.alloc(), &FOUR_LINES, &[], &[])?,
        reads: Vec::new(rt.alloc()),
        noted: true,
    };
    let (end, _taken) = went(rt.alloc(), &mut port);
    println!(rt; "{end:?}, all noted: {}", port.noted)?;
    for (asked, put) in port.reads.as_slice() {
        println!(rt; "a read asks for {asked} bytes, after {put} were put")?;
    }
    Ok(())
}

/// Prints how the loop over the lines of traces ends.
pub fn show(rt: &HostRuntime) -> io::Result<()> {
    println!(rt; "## What lines of at most three bytes give is taken and written")?;
    show_traces(rt)?;
    println!(rt; "## A line at the limit of all lines and one byte past it")?;
    show_limits(rt)?;
    println!(rt; "## Each read of four lines fails in turn; each read asks for one piece")?;
    show_failing_reads(rt)?;
    println!(rt; "## Each write of four lines fails in turn; each takes two bytes")?;
    show_failing_writes(rt)?;
    println!(rt; "## A read comes after the text of all whole lines")?;
    show_noted(rt)
}
