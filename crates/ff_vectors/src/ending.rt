//! How a case ends.
ghost use Rattle.std.specs.Prelude.{◌≡◌, ◌<◌};

use crate::case::Case;
use crate::ended::Ended;
use ff_contract::Steps;
use ff_io::{MemPort, MemShelf, MemSink};
use ff_run::{Status, run};
use std::alloc::{AllocError, Global};
use std::marker::Brand;
use std::sync::ledger::{Blank, Ledger};

/// Obeys words, with counters of copies and turns of their own.
fn obey<C: Ledger, L: Ledger>(
    alloc: Global,
    words: &[String],
    shelf: &mut MemShelf,
    port: &mut MemPort,
    err: &mut MemSink,
    copies: Blank,
    turns: Blank,
) -> Status
    requires copies_name { copies.name ≡ C.name }
    requires copies_parts { copies.parts ≡ C.parts }
    requires some_copies { 0 < copies.parts }
    requires turns_name { turns.name ≡ L.name }
    requires turns_parts { turns.parts ≡ L.parts }
    requires some_turns { 0 < turns.parts }
{
    let mut copied = Steps::<C>::new(copies);
    let mut made = Steps::<L>::new(turns);
    run(alloc, words, shelf, port, err, &mut copied, &mut made)
}

/// How the case ends over a trace.
pub fn end(alloc: Global, case: &Case, trace: &[u8]) -> Result<Ended, AllocError> {
    let mut shelf = case.shelf(alloc)?;
    let mut port = case.port(alloc, trace)?;
    let mut err = case.sink(alloc)?;
    let status = obey::<Brand, Brand>(
        alloc,
        case.words.as_slice(),
        &mut shelf,
        &mut port,
        &mut err,
        Blank::new(1),
        Blank::new(1),
    );
    Ok(Ended {
        number: status.number(),
        got: port.got_bytes().len(),
        put: Vec::from_slice(alloc, port.put_bytes())?,
        reported: Vec::from_slice(alloc, err.put_bytes())?,
    })
}
