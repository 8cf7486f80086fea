//! The loop over the lines of a trace.
ghost use Rattle.std.specs.Prelude.{◌≡◌, ◌≢◌, ◌≤◌, ◌+◌, ℕ, List, [], Option, Ok, Some, None, false};
ghost use Rattle.std.specs.Option.{ForSome};
ghost use Rattle.ff_io.specs.Counts.{Rose};
ghost use Rattle.ff_io.specs.declared.lines.TheConstants.{MOST_TRACE_BYTES};
ghost use Rattle.ff_stream.specs.Owed.{Streams};
ghost use Rattle.ff_stream.specs.Items.{ReadsItem, TakesItem, end_by};

use crate::end::{BadLine, End, Fault};
use crate::reader::Reader;
use crate::taker::Taker;
use ff_contract::Steps;
use ff_io::{LineFail, Lines, Next, Port, put_all};
use std::alloc::Global;
use std::sync::ledger::Ledger;

/// Goes through the trace that a port gives, line by line: gives the item of each line to a taker,
/// and writes the taker's text. Before the port is read again, each whole line that was got was
/// taken, and all of its text was written. It stops at the first bad line, and where a read, a
/// write or memory fails; what the earlier lines gave stays taken and written.
///
/// It holds the bytes of one line and of one read, and the text of one item.
pub fn stream<R: Reader, T: Taker<Item = R::Item>, P: Port, C: Ledger, L: Ledger>(
    alloc: Global,
    reader: &R,
    taker: &T,
    state: &mut T::State,
    port: &mut P,
    copies: &mut Steps<C>,
    turns: &mut Steps<L>,
) -> End<R::Fault>
    requires start { (start : T.Start) × T.is_at taker.now start state.old [] }
    requires fits { (line : List ℕ) (item : R.Item)
        → R.gives reader.now line (Ok (Some item)) → T.accepts taker.now item }
    ensures streams { (start : T.Start) → T.is_at taker.now start state.old []
        → Streams (R.gives reader.now) (T.entry taker.now start) (T.turns_due taker.now start)
        (T.is_at taker.now start state.new) (P.log port.old) (P.log port.new) (P.rest port.old)
        (P.rest port.new) turns.old turns.new result }
    ensures later { turns.old ≤ turns.new }
    ensures later_writes { P.write_faults port.old ≤ P.write_faults port.new }
    ensures later_copies { copies.old ≤ copies.new }
    ensures uncopied { T.copies_none taker.now → copies.new ≡ copies.old }
    ensures read_fault { result ≡ End.ReadFault
        → Rose (P.read_faults port.old) (P.read_faults port.new) }
    ensures write_fault { result ≡ End.WriteFault
        → Rose (P.write_faults port.old) (P.write_faults port.new) }
{
    let mut lines = Lines::new(alloc);
    let mut room = reader.room(alloc);
    let mut text = Vec::new(alloc);
    let mut number = 0;
    loop {
        let item = match read_item(alloc, reader, &mut room, &mut lines, &mut number, port) {
            Ok(item) => item,
            Err(end) => return end,
        };
        match take_item(alloc, taker, state, item, &mut text, port, copies, turns) {
            Ok(()) => (),
            Err(end) => return end,
        }
    }
}

/// Reads the next line and what it gives, and counts it: `number` becomes its number. An error is
/// how the trace ends here.
fn read_item<R: Reader, P: Port>(
    alloc: Global,
    reader: &R,
    room: &mut R::Room,
    lines: &mut Lines,
    number: &mut u64,
    port: &mut P,
) -> Result<Option<R::Item>, End<R::Fault>>
    requires open { lines.old.failed ≡ false }
    requires few { number.old ≤ MOST_TRACE_BYTES }
    ensures counted { number.new ≡ number.old + 1 }
    ensures reads { ReadsItem (R.gives reader.now) (P.log port.old) (P.log port.new)
        (P.rest port.old)
        (P.rest port.new) number.new lines.old lines.new result }
    ensures later { P.read_faults port.old ≤ P.read_faults port.new }
    ensures cause { result ≡ Err End.ReadFault
        → Rose (P.read_faults port.old) (P.read_faults port.new) }
    ensures others { P.write_faults port.new ≡ P.write_faults port.old }
{
    *number += 1;
    match lines.next(port) {
        Ok(Next::Line(line)) => {
            let read = reader.read(alloc, room, &line);
            lines.take_back(line);
            match read {
                Ok(Ok(item)) => Ok(item),
                Ok(Err(fault)) => Err(End::Bad(BadLine {
                    number: *number,
                    fault: Fault::Line(fault),
                })),
                Err(_) => Err(End::NoMemory),
            }
        }
        Ok(Next::End) => Err(End::Done),
        Err(fail) => Err(end_of(*number, fail)),
    }
}

/// How a trace ends where its line of this number can't be given.
fn end_of<F>(number: u64, fail: LineFail) -> End<F>
    ensures { result ≡ end_by number fail }
{
    match fail {
        LineFail::TooLong => End::Bad(BadLine {
            number,
            fault: Fault::TooLong,
        }),
        LineFail::TooMuch => End::Bad(BadLine {
            number,
            fault: Fault::TooMuch,
        }),
        LineFail::Read => End::ReadFault,
        LineFail::NoMemory => End::NoMemory,
    }
}

/// Takes the item that a line gave, where it gave one, and writes its text.
fn take_item<F, T: Taker, P: Port, C: Ledger, L: Ledger>(
    alloc: Global,
    taker: &T,
    state: &mut T::State,
    item: Option<T::Item>,
    text: &mut Vec<u8>,
    port: &mut P,
    copies: &mut Steps<C>,
    turns: &mut Steps<L>,
) -> Result<(), End<F>>
    requires accepts { ForSome item (T.accepts taker.now) }
    requires at { (start : T.Start) × (items : List T.Item)
        × T.is_at taker.now start state.old items }
    ensures takes { (start : T.Start) → TakesItem (T.entry taker.now start)
        (T.turns_due taker.now start) (T.is_at taker.now start state.old)
        (T.is_at taker.now start state.new) (P.log port.old) (P.log port.new) (P.rest port.old)
        (P.rest port.new) item turns.old turns.new result }
    ensures others { P.read_faults port.new ≡ P.read_faults port.old }
    ensures later { P.write_faults port.old ≤ P.write_faults port.new }
    ensures later_turns { turns.old ≤ turns.new }
    ensures later_copies { copies.old ≤ copies.new }
    ensures uncopied { T.copies_none taker.now → copies.new ≡ copies.old }
    ensures no_read { result ≢ Err End.ReadFault }
    ensures cause { result ≡ Err End.WriteFault
        → Rose (P.write_faults port.old) (P.write_faults port.new) }
{
    let Some(item) = item else {
        return Ok(());
    };
    text.clear();
    match taker.take(alloc, state, &item, text, copies, turns) {
        Ok(()) => match put_all(port, text) {
            Ok(()) => Ok(()),
            Err(_) => Err(End::WriteFault),
        },
        Err(_) => Err(End::NoMemory),
    }
}
