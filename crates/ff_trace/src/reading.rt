ghost use Rattle.std.specs.Prelude.{◌≡◌, ◌≤◌, ◌⊎◌, Option, length, IfOk, IfErr, IfSome, MatchOption};
ghost use Rattle.ff_text.specs.declared.reading.TheConstants.{MOST_BYTES};
ghost use Rattle.ff_text.specs.Printed.{AreWellSpelled};
ghost use Rattle.ff_value.specs.declared.input.Input.{Input};
ghost use Rattle.ff_trace.specs.declared.fault.LineFault.{LineFault};
ghost use Rattle.ff_trace.specs.Lines.{Gives, IsInputOf, ReadsLine, input_in, tag_of};
ghost use Rattle.ff_trace.specs.Lines as lines;

use crate::LineFault;
use crate::acts::read_act;
use ff_lattice::Lattice;
use ff_text::{Items, Sexp, TextFault, read_items_in};
use ff_value::Input;
use std::alloc::Global;
use std::mem;

/// Memory that the reading of one line leaves to that of the next. What a line gives doesn't depend
/// on it.
pub struct Room {
    items: Items,
}

// Written out, so that the proof of a caller sees one call and not a part for each field.
impl Drop for Room {
    fn drop(self) {
        let Room { items: _items } = self;
    }
}

impl Room {
    /// Room for the first line.
    pub fn new(alloc: Global) -> Room {
        Room {
            items: Items::from_vec(Vec::new(alloc)),
        }
    }

    /// What there is of it, and none is left.
    fn take(&mut self, alloc: Global) -> Items {
        mem::replace(&mut self.items, Items::from_vec(Vec::new(alloc)))
    }

    /// The items go, and their room is left.
    fn leave(&mut self, items: Items) {
        let mut items = items.into_vec();
        items.clear();
        self.items = Items::from_vec(items);
    }
}

/// The input of a line of at most `ff_text::MOST_BYTES` bytes, without its newline. `None` for a
/// line of blanks alone, and for a comment: a line whose first byte that isn't a blank is `#`. The
/// refusals, the first of which decides: the line isn't a text of items; its tag names no level of
/// the lattice; no kind follows, or none of the seven; a wrong number of parts; a part that is no
/// number below 2^32, no address or domain, no string or no response, the parts from left to right.
pub fn read_input(
    alloc: Global,
    room: &mut Room,
    line: &[u8],
    lattice: &Lattice,
) -> Result<Option<Input>, LineFault>
    requires { length line.now ≤ MOST_BYTES }
    ensures found { IfOk result (λ answer. ReadsLine lattice.now line.now (Ok answer)) }
    ensures well_spelled { IfOk result (λ answer. IfSome answer (IsInputOf lattice.now)) }
    // What is spelled so is read.
    ensures only { (answer : Option Input) → ReadsLine lattice.now line.now (Ok answer)
        → Gives result (Ok answer) }
    ensures fault { IfErr result (λ which. (which ≡ LineFault.NoMemory)
        ⊎ ReadsLine lattice.now line.now (Err which)) }
    // Where this is the first fault, it is answered.
    ensures exact { (which : LineFault) → ReadsLine lattice.now line.now (Err which)
        → Gives result (Err which) }
{
    first_read(alloc, room, line, lattice)
}

/// The input or the first fault. It stands apart for the prover alone: `read_input` says more of
/// its answer.
fn first_read(
    alloc: Global,
    room: &mut Room,
    line: &[u8],
    lattice: &Lattice,
) -> Result<Option<Input>, LineFault>
    requires { length line.now ≤ MOST_BYTES }
    ensures found { ReadsLine lattice.now line.now result ⊎ (result ≡ Err LineFault.NoMemory) }
    ensures well_spelled { IfOk result (λ answer. IfSome answer (IsInputOf lattice.now)) }
{
    if is_silent(line) {
        return Ok(None);
    }
    match read_items_in(alloc, room.take(alloc), line) {
        Ok(items) => {
            let read = read_tagged(alloc, items.as_slice(), lattice);
            room.leave(items);
            read
        }
        Err(fault) => match fault {
            TextFault::NoMemory => Err(LineFault::NoMemory),
            _ => Err(LineFault::Text(fault)),
        },
    }
}

/// Whether a line gives nothing: blanks alone, or blanks and then `#`.
pub fn is_silent(line: &[u8]) -> bool
    ensures { result ≡ lines.is_silent line.now }
{
    for b in line {
        if *b != b' ' {
            return *b == b'#';
        }
    }
    true
}

/// The input of a line's items: a tag or none, and an act.
fn read_tagged(alloc: Global, items: &[Sexp], lattice: &Lattice) -> Result<Option<Input>, LineFault>
    ensures value { Gives result (input_in lattice.now items.now) }
    ensures well_spelled { AreWellSpelled items.now
        → IfOk result (λ answer. IfSome answer (IsInputOf lattice.now)) }
{
    match items.split_first() {
        Some((first, rest)) => match tag_of(first) {
            Some(name) => match lattice.by_name(name) {
                Some(level) => {
                    let act = read_act(alloc, rest)?;
                    Ok(Some(Input {
                        tag: Some(level),
                        act,
                    }))
                }
                None => Err(LineFault::Level),
            },
            None => {
                let act = read_act(alloc, items)?;
                Ok(Some(Input { tag: None, act }))
            }
        },
        None => Err(LineFault::Kind),
    }
}

/// What follows the `@` of a tag, or `None` where the item is no tag.
fn tag_of(item: &Sexp) -> Option<&[u8]>
    ensures { MatchOption result (lines.tag_of item.now ≡ None)
        (λ name. lines.tag_of item.now ≡ Some name.now) }
{
    match item {
        Sexp::Word(_, text) => text.as_bytes().strip_prefix(b"@"),
        _ => None,
    }
}
