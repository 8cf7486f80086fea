// The list itself.
ghost use Rattle.std.specs.Prelude.{◌≡◌, ◌<◌, ◌≤◌, ◌↔◌, [], ◌∷◌, ◌++◌, Some, length, IsTrue, IfOk, IfErr, OnOk, OnErr, slice_get, slice_set};
ghost use Rattle.std.specs.Option.{option_copied};
ghost use Rattle.ff_contract.specs.Rises.{RisesBy};
ghost use Rattle.ff_cow.specs.Push.{returned, is_full};

use crate::cell::{Cell, NoMemory};
use crate::edit::{Edit, Put};
use crate::layer::{Layer, Writable};
use crate::root::Root;
use ff_contract::Steps;
use std::alloc::Global;
use std::marker::Model;
use std::sync::ledger::Ledger;

/// The most cells that a list can have.
pub const MOST_CELLS: u32 = 1_048_576;

/// Why a push was refused. Each refusal gives the value back.
#[derive(Debug, Drop)]
pub enum PushFail<V> {
    /// The list has [`MOST_CELLS`] cells.
    Full(V),
    /// Want of memory.
    NoMemory(V),
}

/// A list of at most [`MOST_CELLS`] cells that shares its nodes with its forks.
#[derive(Drop)]
pub struct CowVec<V> {
    alloc: Global,
    count: u32,
    root: Root<V>,
}

impl<V> Model for CowVec<V> {
    ghost use Rattle.std.specs.Prelude.{◌≡◌, ◌≤◌, List, length};
    ghost use Rattle.std.specs.Coded.{coded_list};

    ghost Value = { List V };

    ghost coded = { coded_list V.code };

    ghost use Rattle.ff_cow.specs.Tower.{root_cells, IsRoot};
    ghost use Rattle.ff_cow.specs.declared.cow_vec.TheConstants.{MOST_CELLS};

    ghost view = { λ a. root_cells a.root };

    ghost invariant = { λ a. IsRoot a.root × (a.count ≡ length (root_cells a.root))
        × (a.count ≤ MOST_CELLS) };
}

impl<V> CowVec<V> {
    /// The list with no cells. It takes no memory; what it grows by is taken from `alloc`.
    pub fn new(alloc: Global) -> CowVec<V>
        ensures { result ≡ [] }
    {
        CowVec {
            alloc,
            count: 0,
            root: Root::empty(alloc),
        }
    }

    /// How many cells the list has.
    pub fn len(&self) -> u32
        ensures value { result ≡ length self.now }
        ensures bound { result ≤ MOST_CELLS }
    {
        self.count
    }

    /// The cell at place `i`, counted from 0. `None` exactly where `i` is the length or more.
    pub fn get(&self, i: u32) -> Option<&V>
        ensures { option_copied result ≡ slice_get self.now i }
    {
        if i < self.count {
            Some(self.root.at(i as usize, MOST_CELLS as usize))
        } else {
            None
        }
    }

    /// Puts a cell at the end. It is refused as `Full` exactly where the list has [`MOST_CELLS`]
    /// cells, and else only for want of memory. A refusal gives the value back and leaves the list
    /// as it was.
    pub fn push<C: Ledger>(&mut self, value: V, copies: &mut Steps<C>) -> Result<(), PushFail<V>>
    where
        V: Cell<C>,
        ensures done { OnOk result (self.new ≡ self.old ++ value ∷ []) }
        ensures kept { OnErr result (self.new ≡ self.old) }
        ensures returned { IfErr result (λ refusal. returned refusal ≡ value) }
        ensures full { IsTrue (is_full result) ↔ (length self.old ≡ MOST_CELLS) }
        ensures copies { RisesBy 15 copies.old copies.new }
    {
        if self.count == MOST_CELLS {
            return Err(PushFail::Full(value));
        }
        let count = self.count as usize;
        let room = MOST_CELLS as usize;
        if let Err(back) = self.root.push(count, room, value, self.alloc, copies) {
            return Err(PushFail::NoMemory(back));
        }
        self.count += 1;
        Ok(())
    }

    /// Writes the cell at place `i`, counted from 0. It is refused only for want of memory, and
    /// then gives the value back and leaves the list as it was.
    pub fn set<C: Ledger>(&mut self, i: u32, value: V, copies: &mut Steps<C>) -> Result<(), V>
    where
        V: Cell<C>,
        requires { i < length self.old }
        ensures done { OnOk result (self.new ≡ slice_set self.old i value) }
        ensures kept { OnErr result (self.new ≡ self.old) }
        ensures returned { IfErr result (λ back. back ≡ value) }
        ensures copies { RisesBy 16 copies.old copies.new }
    {
        match self.edit(i, Put { value }, copies) {
            Ok(()) => Ok(()),
            Err(put) => Err(put.value),
        }
    }

    /// Changes the cell at place `i`, counted from 0, where it lies. It is refused only for want of
    /// memory, and then gives the change back and leaves the list as it was.
    pub fn edit<E: Edit<V>, C: Ledger>(
        &mut self,
        i: u32,
        edit: E,
        copies: &mut Steps<C>,
    ) -> Result<(), E>
    where
        V: Cell<C>,
        requires { i < length self.old }
        ensures done { (cell : V) → slice_get self.old i ≡ Some cell
            → OnOk result (self.new ≡ slice_set self.old i (E.edited edit cell)) }
        ensures kept { OnErr result (self.new ≡ self.old) }
        ensures returned { IfErr result (λ back. back ≡ edit) }
        ensures copies { RisesBy 16 copies.old copies.new }
    {
        let room = MOST_CELLS as usize;
        self.root.edit(i as usize, room, edit, self.alloc, copies)
    }

    /// An equal list that shares its nodes with this one. No cell is copied, and no later write to
    /// one of the two lists is seen in the other. It is refused only for want of memory.
    pub fn fork<C: Ledger>(&self, copies: &mut Steps<C>) -> Result<CowVec<V>, NoMemory>
    where
        V: Cell<C>,
        ensures equal { IfOk result (λ list. list ≡ self.now) }
        ensures copies { copies.new ≡ copies.old }
    {
        Ok(CowVec {
            alloc: self.alloc,
            count: self.count,
            root: self.root.duplicate(self.alloc, copies)?,
        })
    }
}
