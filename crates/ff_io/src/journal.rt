//! A list of pieces that only clauses read.
ghost use Rattle.std.specs.Prelude.{◌≡◌, List, [], ◌∷◌, ◌++◌};
ghost use Rattle.std.specs.Borrow.{ftrue};
ghost use Rattle.ff_io.specs.Pieces.{Piece};
ghost use Rattle.ff_io.specs.Pieces.Piece.{Got, Put};

use std::marker::Model;

/// The pieces noted so far, in order. It takes no bytes, and its methods do nothing at run time.
#[derive(Drop)]
pub(crate) struct Journal {
    pub ghost pieces: { List Piece },
}

impl Model for Journal {
    ghost also_owns = { λ _. ftrue };
}

impl Journal {
    /// A journal with no piece.
    pub(crate) fn new() -> Journal
        ensures { result.pieces ≡ [] }
    {
        Journal {}
    }

    /// One more piece, got.
    pub(crate) fn got(&mut self, _bytes: &[u8])
        ensures { self.new.pieces ≡ self.old.pieces ++ Got _bytes.now ∷ [] }
    {}

    /// One more piece, put.
    pub(crate) fn put(&mut self, _bytes: &[u8])
        ensures { self.new.pieces ≡ self.old.pieces ++ Put _bytes.now ∷ [] }
    {}
}
