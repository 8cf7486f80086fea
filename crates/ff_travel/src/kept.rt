//! A step that is kept, so that it can be taken back.
ghost use Rattle.std.specs.Prelude.{◌≡◌};

use ff_pool::{Pool, Reactor};
use std::marker::Model;

/// The pool before a step, and how many outputs of each level lay beside it.
#[derive(Drop)]
pub(crate) struct Kept<B: Reactor> {
    pool: Pool<B>,
    counts: Vec<usize>,
}

impl<B: Reactor> Model for Kept<B> {
    ghost use Rattle.ff_travel.specs.Beside as beside;
    ghost use Rattle.ff_travel.specs.Beside.{coded_kept};

    ghost Value = { beside.Kept };

    ghost coded = { coded_kept };

    ghost view = { λ k. record { pool = k.pool; counts = k.counts.items } };
}

impl<B: Reactor> Kept<B> {
    pub(crate) fn of(pool: Pool<B>, counts: Vec<usize>) -> Kept<B>
        ensures { result ≡ record { pool = pool; counts = counts.items } }
    {
        Kept { pool, counts }
    }

    /// How many outputs of each level there were.
    pub(crate) fn counts(&self) -> &[usize]
        ensures { result.now ≡ self.now.counts }
    {
        self.counts.as_slice()
    }

    /// The pool.
    pub(crate) fn pool(self) -> Pool<B>
        ensures { result ≡ self.pool }
    {
        self.pool
    }
}
