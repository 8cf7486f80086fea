//! The pieces that are still to come from a port in memory.
ghost use Rattle.std.specs.Prelude.{◌≡◌, ◌≤◌, ◌+◌, ◌^◌, ◌<◌, [], drop, length};
ghost use Rattle.ff_io.specs.Pending.{nonempty, byte_lists, front_piece, without_front, pieces_from, IsPlace};

use std::marker::Model;

/// Pieces of bytes that are got from their front, seen as the list of the pieces that
/// are still to come, none of them empty.
#[derive(Drop)]
pub struct Source {
    pieces: Vec<Vec<u8>>,
    at: usize,
    offset: usize,
}

impl Model for Source {
    ghost use Rattle.std.specs.Prelude.{ℕ, List, drop};
    ghost use Rattle.ff_io.specs.Pending.{pieces_from, IsPlace};

    ghost Value = { List (List ℕ) };

    ghost view = { λ s. pieces_from (drop s.at s.pieces.items) s.offset };

    ghost invariant = { λ s. IsPlace (drop s.at s.pieces.items) s.offset };
}

impl Source {
    /// The pieces in their order; the empty ones are skipped.
    pub fn new(pieces: Vec<Vec<u8>>) -> Source
        ensures { result ≡ nonempty (byte_lists pieces.items) }
    {
        let (at, offset) = next_place(&pieces, 0, 0);
        Source { pieces, at, offset }
    }

    /// What is left of the first piece; no byte where no piece is left.
    pub fn front(&self) -> &[u8]
        ensures front { result.now ≡ front_piece self.now }
        ensures none { length result.now ≡ 0 → self.now ≡ [] }
    {
        match self.pieces.get(self.at) {
            Some(piece) => &piece[self.offset..],
            None => &[],
        }
    }

    /// Goes past the first `n` bytes of the first piece, and past that piece where none is left of
    /// it.
    pub fn advance(&mut self, n: usize)
        requires { n ≤ length (front_piece self.old) }
        ensures { self.new ≡ without_front n self.old }
    {
        let (at, offset) = next_place(&self.pieces, self.at, self.offset + n);
        self.at = at;
        self.offset = offset;
    }
}

/// The place of the next byte at or after byte `offset` of piece `at`.
fn next_place(pieces: &[Vec<u8>], at: usize, offset: usize) -> (usize, usize)
    ensures same { pieces_from (drop result.0 pieces.now) result.1
        ≡ pieces_from (drop at pieces.now) offset }
    ensures place { IsPlace (drop result.0 pieces.now) result.1 }
{
    let mut at = at;
    let mut offset = offset;
    while at < pieces.len() && offset >= pieces[at].len() {
        at += 1;
        offset = 0;
    }
    (at, offset)
}
