//! A list of fetches that only clauses read.
ghost use Rattle.std.specs.Prelude.{◌≡◌, Some, None, List, [], ◌∷◌, ◌++◌};
ghost use Rattle.std.specs.Borrow.{ftrue};
ghost use Rattle.ff_io.specs.Shelf.{Fetch, fetched};

use std::marker::Model;

/// The fetches noted so far, in order. It takes no bytes, and its methods do nothing when the
/// program runs.
#[derive(Drop)]
pub(crate) struct Fetches {
    pub ghost noted: { List Fetch },
}

impl Model for Fetches {
    ghost also_owns = { λ _. ftrue };
}

impl Fetches {
    /// No fetch yet.
    pub(crate) fn new() -> Fetches
        ensures { result.noted ≡ [] }
    {
        Fetches {}
    }

    /// One more fetch, by a name and from a place on, and the bytes that came.
    pub(crate) fn came(&mut self, _name: &[u8], _place: u64, _bytes: &[u8])
        ensures { self.new.noted
            ≡ self.old.noted ++ fetched _name.now _place (Some _bytes.now) ∷ [] }
    {}

    /// One more fetch, which failed.
    pub(crate) fn failed(&mut self, _name: &[u8], _place: u64)
        ensures { self.new.noted ≡ self.old.noted ++ fetched _name.now _place None ∷ [] }
    {}
}
