// The lowest layer: up to sixteen cells side by side.
ghost use Rattle.std.specs.Prelude.{◌≡◌, ◌≤◌, ℕ, length};
ghost use Rattle.std.proofs.Common.{arith};
ghost use Rattle.ff_cow.specs.Tower.{leaf_cells, IsLeaf};

use crate::cell::{Cell, NoMemory};
use crate::edit::Edit;
use crate::layer::{Layer, WIDTH, Writable};
use ff_contract::Steps;
use std::alloc::Global;
use std::sync::ledger::Ledger;

#[derive(Drop)]
pub(crate) struct Leaf<V> {
    cells: Vec<V>,
}

impl<V> Layer<V> for Leaf<V> {
    ghost capacity = { 16 };

    ghost cells = { leaf_cells };

    ghost is_valid = { IsLeaf };

    fn empty(alloc: Global) -> Leaf<V> {
        Leaf {
            cells: Vec::new(alloc),
        }
    }

    fn at(&self, i: usize, _room: usize) -> &V {
        &self.cells[i]
    }
}

impl<V: Drop> Writable<V> for Leaf<V> {
    ghost copied = { length };

    fn duplicate<C: Ledger>(
        &self,
        alloc: Global,
        copies: &mut Steps<C>,
    ) -> Result<Leaf<V>, NoMemory>
    where
        V: Cell<C>,
    {
        let mut cells = Vec::with_capacity(alloc, WIDTH)?;
        for cell in &self.cells {
            cells.push(cell.copy(copies)?)?;
        }
        Ok(Leaf { cells })
    }

    fn edit<E: Edit<V>, C: Ledger>(
        &mut self,
        i: usize,
        _room: usize,
        edit: E,
        _alloc: Global,
        _copies: &mut Steps<C>,
    ) -> Result<(), E>
    where
        V: Cell<C>,
    {
        edit.edit(&mut self.cells[i]);
        Ok(())
    }

    fn push<C: Ledger>(
        &mut self,
        _count: usize,
        _room: usize,
        value: V,
        _alloc: Global,
        _copies: &mut Steps<C>,
    ) -> Result<(), V>
    where
        V: Cell<C>,
    {
        self.cells.push(value).map_err(|refused| refused.value)
    }

    ghost few = { λ node valid. valid };

    ghost fewer = { λ node valid space. Prim.omega arith };
}
