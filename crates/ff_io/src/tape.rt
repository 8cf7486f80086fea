//! The pieces that passed through a port in memory.
ghost use Rattle.std.specs.Prelude.{◌≡◌, ◌++◌, [], ◌∷◌, OnOk, OnErr};
ghost use Rattle.ff_io.specs.Pieces.{got_of, put_of};
ghost use Rattle.ff_io.specs.Pieces.Piece.{Got, Put};

use crate::NoMemory;
use std::alloc::{AllocError, Global};
use std::marker::Model;

/// One piece by the side that it passed on and its length in bytes.
#[derive(Clone, Copy)]
pub enum Step {
    /// So many bytes were got; none at the end.
    In(usize),
    /// So many bytes were put.
    Out(usize),
}

/// Pieces got and put, in the order in which they passed. The bytes of each side are kept joined.
#[derive(Drop)]
pub struct Tape {
    got: Vec<u8>,
    put: Vec<u8>,
    steps: Vec<Step>,
}

impl Model for Tape {
    ghost use Rattle.std.specs.Prelude.{List};
    ghost use Rattle.ff_io.specs.Pieces.{Piece};

    ghost Value = { List Piece };

    ghost use Rattle.ff_io.specs.Tape.{replay, Cuts};

    ghost view = { λ t. replay t.steps.items t.got.items t.put.items };

    ghost invariant = { λ t. Cuts t.steps.items t.got.items t.put.items };
}

impl Tape {
    /// Nothing passed yet.
    pub fn new(alloc: Global) -> Tape
        ensures { result ≡ [] }
    {
        Tape {
            got: Vec::new(alloc),
            put: Vec::new(alloc),
            steps: Vec::new(alloc),
        }
    }

    /// The bytes got, joined.
    pub fn got(&self) -> &[u8]
        ensures { result.now ≡ got_of self.now }
    {
        &self.got
    }

    /// The bytes put, joined.
    pub fn put(&self) -> &[u8]
        ensures { result.now ≡ put_of self.now }
    {
        &self.put
    }

    /// Adds a piece that was got. Where there is no memory for it, nothing changes.
    pub fn keep_got(&mut self, bytes: &[u8]) -> Result<(), NoMemory>
        ensures done { OnOk result (self.new ≡ self.old ++ Got bytes.now ∷ []) }
        ensures kept { OnErr result (self.new ≡ self.old) }
    {
        keep(&mut self.got, &mut self.steps, bytes, Step::In(bytes.len()))
    }

    /// Adds a piece that was put. Where there is no memory for it, nothing changes.
    pub fn keep_put(&mut self, bytes: &[u8]) -> Result<(), NoMemory>
        ensures done { OnOk result (self.new ≡ self.old ++ Put bytes.now ∷ []) }
        ensures kept { OnErr result (self.new ≡ self.old) }
    {
        keep(
            &mut self.put,
            &mut self.steps,
            bytes,
            Step::Out(bytes.len()),
        )
    }
}

/// Adds the bytes to one side and the step to the steps, or neither.
fn keep(side: &mut Vec<u8>, steps: &mut Vec<Step>, bytes: &[u8], step: Step) -> Result<(), NoMemory>
    ensures side { OnOk result (side.new.items ≡ side.old.items ++ bytes.now) }
    ensures steps { OnOk result (steps.new.items ≡ steps.old.items ++ step ∷ []) }
    ensures kept { OnErr result ((side.new.items ≡ side.old.items)
        × (steps.new.items ≡ steps.old.items)) }
{
    steps.push(step)?;
    if side.extend_from_slice(bytes).is_err() {
        steps.pop();
        return Err(AllocError);
    }
    Ok(())
}
