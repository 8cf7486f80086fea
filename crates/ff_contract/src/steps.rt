//! A counter of steps that costs nothing when the program runs.
//!
//! A [`Steps`] is a natural number that only proofs see: a clause reads
//! `steps.new ≡ steps.old + 1`, and the compiled program holds no byte of it. It never overflows,
//! and only [`Steps::tick`] moves it. A call that counts takes `&mut Steps<L>`, generic in the
//! ledger `L`, and ticks where it does what is counted: `copies: &mut Steps<C>` counts copies of
//! cells, `turns: &mut Steps<L>` counts turns.
//!
//! A call that counts so many at most says it in one word, `RisesBy most copies.old copies.new`
//! (`specs/Rises`): the counter hasn't gone back, and has moved by `most` or less.
//!
//! # Making one
//!
//! A counter is made from a `Blank` of the ledger `L` that its type names, so `Steps::new` stands
//! in a function that is generic in `L`. `main` and tests call such a function at
//! `std::marker::Brand`, and pick the ledger at that call in their own `Invariants.antt`:
//!
//! ```text
//! fn count_two<L: Ledger>(blank: Blank)
//!     requires name { blank.name ≡ L.name }
//!     requires parts { blank.parts ≡ L.parts }
//!     requires some { 0 < blank.parts }
//! {
//!     let mut steps = Steps::<L>::new(blank);
//!     ..
//! }
//!
//! fn caller() {
//!     count_two::<Brand>(Blank::new(1));
//! }
//!
//! -- proofs/caller/Invariants.antt
//! abbrev pub ghosts-count_two : goal.ghosts-count_two
//! ghosts-count_two a = record { name = a.blank.name; parts = a.blank.parts }
//! ```
//!
//! A caller that is generic, as `main` and a test are in their runtime, writes
//! `ghosts-count_two g a`. Where the function has two ledgers `C` and `L`, the picks are
//! `ghosts-count_two-C-Ledger` and `ghosts-count_two-L-Ledger`.
ghost use Rattle.std.specs.Prelude.{◌≡◌, ◌+◌, ◌<◌};

use std::marker::Model;
use std::sync::ledger::{Blank, Book, Ledger, Share};

/// How many steps were taken: a natural number in clauses, and no bytes in the program.
#[derive(Drop)]
pub struct Steps<L: Ledger> {
    book: Book<L>,
    share: Share<L>,
}

impl<L: Ledger> Model for Steps<L> {
    ghost use Rattle.std.specs.Prelude.{ℕ, ◌<◌};

    ghost Value = { ℕ };

    ghost view = { λ steps. steps.book.total };

    ghost invariant = { λ steps. 0 < steps.share.parts };
}

impl<L: Ledger> Steps<L> {
    /// A counter at 0, over the ledger that `blank` is for.
    pub fn new(blank: Blank) -> Steps<L>
        requires name { blank.name ≡ L.name }
        requires parts { blank.parts ≡ L.parts }
        requires some { 0 < blank.parts }
        ensures { result ≡ 0 }
    {
        let (book, share) = blank.open::<L>();
        Steps { book, share }
    }

    /// One more step.
    pub fn tick(&mut self)
        ensures { self.new ≡ self.old + 1 }
    {
        self.book.add(&mut self.share, 1);
    }
}
