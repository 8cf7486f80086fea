//! The pages, and how many of their queues begin with a script.
ghost use Rattle.std.specs.Prelude.{◌≡◌, ◌+◌, ◌-◌, ◌^◌, ◌<◌, ◌≤◌, ℕ, false, [], ◌∷◌, ◌++◌, Some, is_some, length, IfOk, OnErr, OnOk, slice_get, slice_index_or, slice_set};
ghost use Rattle.std.specs.Option.{option_copied};
ghost use Rattle.ff_contract.specs.Rises.{RisesBy};
ghost use Rattle.ff_machine.specs.Windows.{Page, no_page, first_ready};
ghost use Rattle.ff_windows.specs.Queues.{count_ready, one_if};

use crate::page::PageCell;
use ff_contract::Steps;
use ff_cow::{CowVec, Edit};
use ff_name::NoMemory;
use std::alloc::{AllocError, Global};
use std::marker::Model;
use std::sync::ledger::Ledger;

/// Pages at their numbers. How many of their queues begin with a script is kept beside them, so
/// that where none does no page is asked.
#[derive(Drop)]
pub(crate) struct Pages {
    cells: CowVec<PageCell>,
    ready: u32,
}

impl Model for Pages {
    ghost use Rattle.std.specs.Prelude.{◌≡◌, List};
    ghost use Rattle.std.specs.Coded.{coded_list};
    ghost use Rattle.ff_machine.specs.Codes.{coded_page};
    ghost use Rattle.ff_machine.specs.Windows.{Page};
    ghost use Rattle.ff_windows.specs.Queues.{count_ready};

    ghost Value = { List Page };

    ghost coded = { coded_list coded_page };

    ghost view = { λ p. p.cells };

    ghost invariant = { λ p. p.ready ≡ count_ready p.cells };
}

impl Pages {
    /// No pages, which take no memory.
    pub(crate) fn new(alloc: Global) -> Pages
        ensures { result ≡ [] }
    {
        Pages {
            cells: CowVec::new(alloc),
            ready: 0,
        }
    }

    /// How many pages there are.
    pub(crate) fn len(&self) -> u32
        ensures { result ≡ length self.now }
    {
        self.cells.len()
    }

    /// The page of a number, where there is one.
    pub(crate) fn get(&self, i: u32) -> Option<&PageCell>
        ensures { option_copied result ≡ slice_get self.now i }
    {
        self.cells.get(i)
    }

    /// Whether the queue of a page begins with a script, of any page, that of a closed window too.
    pub(crate) fn any_ready(&self) -> bool
        ensures none { result ≡ false → (i : ℕ)
            → is_some (first_ready (slice_index_or self.now i no_page).queue) ≡ false }
    {
        self.ready > 0
    }

    /// Puts a page more. After want of memory the pages are as they were.
    pub(crate) fn push<C: Ledger>(
        &mut self,
        cell: PageCell,
        copies: &mut Steps<C>,
    ) -> Result<(), NoMemory>
        ensures done { OnOk result (self.new ≡ self.old ++ cell ∷ []) }
        ensures kept { OnErr result (self.new ≡ self.old) }
        ensures copies { RisesBy 15 copies.old copies.new }
    {
        let _known = self.cells.len();
        let ready = counted(self.ready, false, cell.is_ready());
        let Ok(()) = self.cells.push(cell, copies) else {
            return Err(AllocError);
        };
        self.ready = ready;
        Ok(())
    }

    /// Puts another page at a number that there is. After want of memory the pages are as they
    /// were.
    pub(crate) fn set<C: Ledger>(
        &mut self,
        i: u32,
        cell: PageCell,
        copies: &mut Steps<C>,
    ) -> Result<(), NoMemory>
        requires { i < length self.old }
        ensures done { OnOk result (self.new ≡ slice_set self.old i cell) }
        ensures kept { OnErr result (self.new ≡ self.old) }
        ensures copies { RisesBy 16 copies.old copies.new }
    {
        let _known = self.cells.len();
        let ready = counted(self.ready, is_ready_at(&self.cells, i), cell.is_ready());
        let Ok(()) = self.cells.set(i, cell, copies) else {
            return Err(AllocError);
        };
        self.ready = ready;
        Ok(())
    }

    /// Changes a page where it lies, at a number that there is. After want of memory the pages are
    /// as they were.
    pub(crate) fn edit<E: Edit<PageCell> + Drop, C: Ledger>(
        &mut self,
        i: u32,
        edit: E,
        copies: &mut Steps<C>,
    ) -> Result<(), NoMemory>
        requires { i < length self.old }
        ensures done { OnOk result (self.new ≡ slice_set self.old i
            (E.edited edit (slice_index_or self.old i no_page))) }
        ensures kept { OnErr result (self.new ≡ self.old) }
        ensures copies { RisesBy 16 copies.old copies.new }
    {
        let _known = self.cells.len();
        let was = is_ready_at(&self.cells, i);
        let Ok(()) = self.cells.edit(i, edit, copies) else {
            return Err(AllocError);
        };
        self.ready = counted(self.ready, was, is_ready_at(&self.cells, i));
        Ok(())
    }

    /// Equal pages that share their cells with these. It is refused only for want of memory.
    pub(crate) fn fork<C: Ledger>(&self, copies: &mut Steps<C>) -> Result<Pages, NoMemory>
        ensures equal { IfOk result (λ pages. pages ≡ self.now) }
        ensures copies { copies.new ≡ copies.old }
    {
        Ok(Pages {
            cells: self.cells.fork(copies)?,
            ready: self.ready,
        })
    }
}

/// Whether the queue of the page of a number that there is begins with a script.
fn is_ready_at(cells: &CowVec<PageCell>, i: u32) -> bool
    requires { i < length cells.now }
    ensures { result ≡ is_some (first_ready (slice_index_or cells.now i no_page).queue) }
{
    match cells.get(i) {
        Some(cell) => cell.is_ready(),
        None => unreachable!(),
    }
}

/// The count where one that was in it or not is in it now or not.
fn counted(ready: u32, was: bool, is: bool) -> u32
    requires some { one_if was ≤ ready }
    requires few { ready < 2 ^ 32 - 1 }
    ensures { result + one_if was ≡ ready + one_if is }
{
    match (was, is) {
        (true, false) => ready - 1,
        (false, true) => ready + 1,
        _ => ready,
    }
}
