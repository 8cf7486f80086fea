ghost use Rattle.std.specs.Prelude.{◌≤◌, length, IfOk};
ghost use Rattle.ff_session.specs.Giving.{Gives};

use crate::NoMemory;
use ff_io::MOST_LINE_BYTES;
use ff_lattice::Lattice;
use ff_status::TraceFault;
use ff_stream::Reader;
use ff_trace::{LineFault, Room, read_input};
use ff_value::Input;
use std::alloc::{AllocError, Global};

/// Reads the lines of a trace as inputs.
#[derive(Clone, Copy)]
pub struct InputReader<'a> {
    /// It has the levels that tags name.
    pub lattice: &'a Lattice,
}

impl Reader for InputReader<'_> {
    ghost use Rattle.ff_session.specs.Giving.{Gives};
    ghost use Rattle.ff_session.specs.Once.{gives_once};

    type Item = Input;

    type Fault = TraceFault;

    type Room = Room;

    ghost gives = { λ reader line answer. Gives reader.lattice.now line answer };

    ghost once = { λ reader. gives_once reader.lattice.now };

    fn room(&self, alloc: Global) -> Room {
        Room::new(alloc)
    }

    fn read(
        &self,
        alloc: Global,
        room: &mut Room,
        line: &[u8],
    ) -> Result<Result<Option<Input>, TraceFault>, NoMemory> {
        read_line(alloc, room, self.lattice, line)
    }
}

/// What a line gives: no input, an input, or what is wrong with the line.
#[tactic(auto, using(crate::proofs::Giving::gives_none, crate::proofs::Giving::gives_input, crate::proofs::Giving::gives_fault))]
fn read_line(
    alloc: Global,
    room: &mut Room,
    lattice: &Lattice,
    line: &[u8],
) -> Result<Result<Option<Input>, TraceFault>, NoMemory>
    requires { length line.now ≤ MOST_LINE_BYTES }
    ensures { IfOk result (Gives lattice.now line.now) }
{
    match read_input(alloc, room, line, lattice) {
        Ok(given) => Ok(Ok(given)),
        Err(LineFault::NoMemory) => Err(AllocError),
        Err(fault) => Ok(Err(TraceFault::Line(fault))),
    }
}
