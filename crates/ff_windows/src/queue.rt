//! The queue of a page's scripts.
//!
//! It is two shared lists: the first is read from a place on, and the second takes what comes once
//! the first is full. Taking an entry out moves none, and no list is ever built anew, so a change
//! copies a bounded number of cells.
ghost use Rattle.std.specs.Prelude.{◌≡◌, ◌<◌, ◌≤◌, Some, [], ◌∷◌, ◌++◌, map, drop, length, filter_map, nat_eq, slice_get, slice_set, IfOk, OnOk};
ghost use Rattle.std.specs.List.{IsDistinct, list_any, position_or_len};
ghost use Rattle.std.specs.Option.{option_copied};
ghost use Rattle.ff_contract.specs.Rises.{RisesBy};
ghost use Rattle.ff_machine.specs.Alone.{waiting};
ghost use Rattle.ff_machine.specs.Windows.{fill_entry, is_slot};
ghost use Rattle.ff_machine.specs.declared.records.Entry.TheVariants.{Ready};

use ff_contract::Steps;
use ff_cow::{Cell, CowVec, MOST_CELLS};
use ff_machine::Entry;
use ff_name::NoMemory;
use ff_records::Entries;
use ff_value::Body;
use std::alloc::{AllocError, Global};
use std::marker::Model;
use std::mem;
use std::sync::ledger::Ledger;

/// An entry as a cell of a list.
#[derive(Drop)]
pub(crate) struct EntryCell {
    entry: Entry,
}

impl Model for EntryCell {
    ghost use Rattle.ff_machine.specs.declared.records.Entry.{Entry};
    ghost use Rattle.ff_machine.specs.contracts.records.Entry as entries;

    ghost Value = { Entry };

    ghost coded = { entries.the_row.coded };

    ghost view = { λ cell. cell.entry };
}

impl EntryCell {
    fn of(entry: Entry) -> EntryCell
        ensures { result ≡ entry }
    {
        EntryCell { entry }
    }

    fn entry(&self) -> &Entry
        ensures { result.now ≡ self.now }
    {
        &self.entry
    }
}

impl<C: Ledger> Cell<C> for EntryCell {
    fn copy(&self, copies: &mut Steps<C>) -> Result<EntryCell, NoMemory> {
        copies.tick();
        Ok(EntryCell {
            entry: self.entry.copy()?,
        })
    }
}

/// Entries in the order in which they came: what stands in `front` from the place `first` on, and
/// then `back`, which is empty until `front` is full. Where nothing is left in `front`, both are
/// empty.
#[derive(Drop)]
pub(crate) struct Queue {
    alloc: Global,
    front: CowVec<EntryCell>,
    first: u32,
    back: CowVec<EntryCell>,
}

impl Model for Queue {
    ghost use Rattle.std.specs.Prelude.{◌++◌, List, drop};
    ghost use Rattle.std.specs.Coded.{coded_list};
    ghost use Rattle.ff_machine.specs.declared.records.Entry.{Entry};
    ghost use Rattle.ff_machine.specs.contracts.records.Entry as entries;
    ghost use Rattle.ff_windows.specs.Queues.{AreHalves};

    ghost Value = { List Entry };

    ghost coded = { coded_list entries.the_row.coded };

    ghost view = { λ q. drop q.first q.front ++ q.back };

    ghost invariant = { λ q. AreHalves q.first q.front q.back };
}

impl Queue {
    /// The queue without entries, which takes no memory.
    pub(crate) fn new(alloc: Global) -> Queue
        ensures { result ≡ [] }
    {
        Queue {
            alloc,
            front: CowVec::new(alloc),
            first: 0,
            back: CowVec::new(alloc),
        }
    }

    /// The queue of these entries, whose scripts it shares.
    pub(crate) fn restored<C: Ledger>(
        alloc: Global,
        entries: &[Entry],
        copies: &mut Steps<C>,
    ) -> Result<Queue, NoMemory>
        ensures value { IfOk result (λ queue. queue ≡ entries.now) }
        ensures later { copies.old ≤ copies.new }
    {
        let mut queue = Queue::new(alloc);
        for entry in entries {
            queue.push(entry.copy()?, copies)?;
        }
        Ok(queue)
    }

    /// Its entries, which share their scripts with it.
    pub(crate) fn record(&self, alloc: Global) -> Result<Entries, NoMemory>
        ensures { IfOk result (λ entries. entries ≡ self.now) }
    {
        let mut entries = Vec::new(alloc);
        for i in 0..self.len() {
            entries.push(self.at(i).copy()?)?;
        }
        Ok(Entries::from_vec(entries))
    }

    /// How many entries there are.
    pub(crate) fn len(&self) -> u32
        ensures { result ≡ length self.now }
    {
        self.front.len() - self.first + self.back.len()
    }

    /// The entry at a place that there is.
    fn at(&self, i: u32) -> &Entry
        requires { i < length self.now }
        ensures { slice_get self.now i ≡ Some result.now }
    {
        let rest = self.front.len() - self.first;
        let found = if i < rest {
            self.front.get(self.first + i)
        } else {
            self.back.get(i - rest)
        };
        match found {
            Some(cell) => cell.entry(),
            None => unreachable!(),
        }
    }

    /// The first entry, where there is one.
    pub(crate) fn first(&self) -> Option<&Entry>
        ensures { option_copied result ≡ slice_get self.now 0 }
    {
        if self.len() == 0 {
            return None;
        }
        Some(self.at(0))
    }

    /// Puts an entry at the end. It is refused only for want of memory.
    pub(crate) fn push<C: Ledger>(
        &mut self,
        entry: Entry,
        copies: &mut Steps<C>,
    ) -> Result<(), NoMemory>
        ensures done { OnOk result (self.new ≡ self.old ++ entry ∷ []) }
        ensures copies { RisesBy 15 copies.old copies.new }
    {
        let cell = EntryCell::of(entry);
        if self.back.len() == 0 && self.front.len() < MOST_CELLS {
            let Ok(()) = self.front.push(cell, copies) else {
                return Err(AllocError);
            };
        } else {
            let Ok(()) = self.back.push(cell, copies) else {
                return Err(AllocError);
            };
        }
        Ok(())
    }

    /// Takes out the first entry, where there is one.
    pub(crate) fn pop(&mut self)
        ensures { self.new ≡ drop 1 self.old }
    {
        let count = self.front.len();
        if count == 0 {
            return;
        }
        self.first += 1;
        if self.first == count {
            self.front = mem::replace(&mut self.back, CowVec::new(self.alloc));
            self.first = 0;
        }
    }

    /// Writes the entry at a place that there is. It is refused only for want of memory.
    fn set<C: Ledger>(
        &mut self,
        i: u32,
        entry: Entry,
        copies: &mut Steps<C>,
    ) -> Result<(), NoMemory>
        requires { i < length self.old }
        ensures done { OnOk result (self.new ≡ slice_set self.old i entry) }
        ensures copies { RisesBy 16 copies.old copies.new }
    {
        let rest = self.front.len() - self.first;
        let cell = EntryCell::of(entry);
        if i < rest {
            let Ok(()) = self.front.set(self.first + i, cell, copies) else {
                return Err(AllocError);
            };
        } else {
            let Ok(()) = self.back.set(i - rest, cell, copies) else {
                return Err(AllocError);
            };
        }
        Ok(())
    }

    /// The place of the slot of a number, or the number of entries where it doesn't wait.
    fn place_of(&self, slot: u32) -> u32
        ensures { result ≡ position_or_len (is_slot slot) self.now }
    {
        for i in 0..self.len() {
            if waits_at(self.at(i), slot) {
                return i;
            }
        }
        self.len()
    }

    /// Puts a script into the slot of a number, where it waits, and answers whether it does.
    pub(crate) fn fill<C: Ledger>(
        &mut self,
        slot: u32,
        body: &Body,
        copies: &mut Steps<C>,
    ) -> Result<bool, NoMemory>
        requires { IsDistinct nat_eq (filter_map waiting self.old) }
        ensures done { OnOk result (self.new ≡ map (fill_entry slot body.now) self.old) }
        ensures waits { IfOk result (λ b. b ≡ list_any (is_slot slot) self.old) }
        ensures copies { RisesBy 16 copies.old copies.new }
    {
        let place = self.place_of(slot);
        if place >= self.len() {
            return Ok(false);
        }
        self.set(place, Entry::Ready(body.copy()?), copies)?;
        Ok(true)
    }

    /// An equal queue that shares its entries with this one.
    pub(crate) fn fork<C: Ledger>(&self, copies: &mut Steps<C>) -> Result<Queue, NoMemory>
        ensures equal { IfOk result (λ queue. queue ≡ self.now) }
        ensures copies { copies.new ≡ copies.old }
    {
        Ok(Queue {
            alloc: self.alloc,
            front: self.front.fork(copies)?,
            first: self.first,
            back: self.back.fork(copies)?,
        })
    }
}

/// Whether the entry is the waiting slot of a number.
fn waits_at(entry: &Entry, slot: u32) -> bool
    ensures { result ≡ is_slot slot entry.now }
{
    match entry {
        Entry::Ready(_body) => false,
        Entry::Wait(k) => *k == slot,
    }
}
