// A write of a cell, as a change that goes down to it.
ghost use Rattle.std.specs.Prelude.{◌≡◌};

/// A change of one cell, made where the cell lies.
pub trait Edit<V>: Sized {
    // what the change makes of a cell
    ghost edited: { Self → V → V };

    /// Makes the change. It can't be refused: what it takes is made before.
    fn edit(self, cell: &mut V)
        ensures { cell.new ≡ edited self cell.old };
}

/// The change into a cell that was made before.
#[derive(Drop)]
pub(crate) struct Put<V> {
    pub(crate) value: V,
}

impl<V: Drop> Edit<V> for Put<V> {
    ghost edited = { λ put _. put.value };

    fn edit(self, cell: &mut V) {
        *cell = self.value;
    }
}
