//! A list that forks share, and that can shrink: cells behind its end wait to be written again.
ghost use Rattle.std.specs.Prelude.{◌≡◌, ◌+◌, ◌*◌, ◌<◌, ◌≤◌, [], ◌∷◌, ◌++◌, length, Some, IfOk, OnOk, OnErr, slice_get, slice_set};
ghost use Rattle.std.specs.List.{remove, swap_remove};
ghost use Rattle.ff_contract.specs.Rises.{RisesBy};

use ff_contract::Steps;
use ff_cow::{Cell, CowVec};
use ff_name::NoMemory;
use std::alloc::{AllocError, Global};
use std::marker::Model;
use std::sync::ledger::Ledger;

#[derive(Drop)]
pub(crate) struct ShrinkingList<V> {
    cells: CowVec<V>,
    len: u32,
}

impl<V> Model for ShrinkingList<V> {
    ghost use Rattle.std.specs.Prelude.{◌≤◌, List, length, take};
    ghost use Rattle.std.specs.Coded.{coded_list};

    ghost Value = { List V };

    ghost coded = { coded_list V.code };

    ghost view = { λ a. take a.len a.cells };

    ghost invariant = { λ a. a.len ≤ length a.cells };
}

impl<V> ShrinkingList<V> {
    /// The list with no rows, which takes no memory.
    pub(crate) fn new(alloc: Global) -> ShrinkingList<V>
        ensures { result ≡ [] }
    {
        ShrinkingList {
            cells: CowVec::new(alloc),
            len: 0,
        }
    }

    /// How many rows there are.
    pub(crate) fn len(&self) -> u32
        ensures { result ≡ length self.now }
    {
        self.len
    }

    /// The row at a place that there is.
    pub(crate) fn at(&self, i: u32) -> &V
        requires { i < length self.now }
        ensures { slice_get self.now i ≡ Some result.now }
    {
        match self.cells.get(i) {
            Some(cell) => cell,
            None => unreachable!(),
        }
    }

    /// Puts a row at the end. A refusal, for want of memory, leaves the list as it was.
    pub(crate) fn push<C: Ledger>(
        &mut self,
        value: V,
        copies: &mut Steps<C>,
    ) -> Result<(), NoMemory>
    where
        V: Cell<C>,
        ensures done { OnOk result (self.new ≡ self.old ++ value ∷ []) }
        ensures kept { OnErr result (self.new ≡ self.old) }
        ensures copies { RisesBy 16 copies.old copies.new }
    {
        let count = self.cells.len();
        if self.len < count {
            let Ok(()) = self.cells.set(self.len, value, copies) else {
                return Err(AllocError);
            };
        } else {
            let Ok(()) = self.cells.push(value, copies) else {
                return Err(AllocError);
            };
        }
        self.len += 1;
        Ok(())
    }

    /// Writes the row at a place that there is. A refusal, for want of memory, leaves the list as
    /// it was.
    pub(crate) fn set<C: Ledger>(
        &mut self,
        i: u32,
        value: V,
        copies: &mut Steps<C>,
    ) -> Result<(), NoMemory>
    where
        V: Cell<C>,
        requires { i < length self.old }
        ensures done { OnOk result (self.new ≡ slice_set self.old i value) }
        ensures kept { OnErr result (self.new ≡ self.old) }
        ensures copies { RisesBy 16 copies.old copies.new }
    {
        let Ok(()) = self.cells.set(i, value, copies) else {
            return Err(AllocError);
        };
        Ok(())
    }

    /// Takes out the row at a place that there is, and puts the last row into its place. A refusal,
    /// for want of memory, leaves the list as it was.
    pub(crate) fn swap_remove<C: Ledger>(
        &mut self,
        i: u32,
        copies: &mut Steps<C>,
    ) -> Result<(), NoMemory>
    where
        V: Cell<C>,
        requires { i < length self.old }
        ensures done { OnOk result ((d : V) → self.new ≡ swap_remove self.old i d) }
        ensures kept { OnErr result (self.new ≡ self.old) }
        ensures copies { RisesBy 17 copies.old copies.new }
    {
        let last = self.len() - 1;
        let moved = self.at(last).copy(copies)?;
        self.set(i, moved, copies)?;
        self.len = last;
        Ok(())
    }

    /// Takes out the row at a place that there is; later ones move down. After a refusal, for want
    /// of memory, the rows are not stated.
    pub(crate) fn remove<C: Ledger>(
        &mut self,
        i: u32,
        copies: &mut Steps<C>,
    ) -> Result<(), NoMemory>
    where
        V: Cell<C>,
        requires { i < length self.old }
        ensures done { OnOk result (self.new ≡ remove self.old i) }
        ensures later { copies.old ≤ copies.new }
        ensures copies { copies.new + 17 ≤ copies.old + 17 * length self.old }
    {
        let last = self.len() - 1;
        for j in i..last {
            let moved = self.at(j + 1).copy(copies)?;
            self.set(j, moved, copies)?;
        }
        self.len = last;
        Ok(())
    }

    /// An equal list that shares its rows with this one, until one of the two writes them. It is
    /// refused only for want of memory.
    pub(crate) fn fork<C: Ledger>(
        &self,
        copies: &mut Steps<C>,
    ) -> Result<ShrinkingList<V>, NoMemory>
    where
        V: Cell<C>,
        ensures equal { IfOk result (λ rows. rows ≡ self.now) }
        ensures copies { copies.new ≡ copies.old }
    {
        Ok(ShrinkingList {
            cells: self.cells.fork(copies)?,
            len: self.len,
        })
    }
}
