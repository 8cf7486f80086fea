//! The store of windows, pages and activations, and how it is read and changed underneath.
ghost use Rattle.std.specs.Prelude.{◌≡◌, ◌<◌, [], ◌∷◌, ◌++◌, length, filter, not, false, is_some, IfOk, OnOk};
ghost use Rattle.ff_contract.specs.Rises.{RisesBy};
ghost use Rattle.ff_machine.specs.Alone.{AreWindows};
ghost use Rattle.ff_machine.specs.Windows as w;
ghost use Rattle.ff_machine.specs.Windows.{first_ready};
ghost use Rattle.ff_value.specs.declared.ids.PageId.{PageId};

use crate::page::PageCell;
use crate::pages::Pages;
use crate::window::WinCell;
use ff_acts::Acts;
use ff_contract::Steps;
use ff_cow::{CowVec, Edit};
use ff_machine::MOST_ACTS;
use ff_name::NoMemory;
use ff_value::{ActId, PageId, WinId};
use std::alloc::{AllocError, Global};
use std::marker::Model;
use std::sync::ledger::Ledger;

/// The windows, pages and activations of one browser, each at its number, and the open windows in
/// order of opening. It is valid at all times. After want of memory what it holds is not stated; it
/// is valid then too.
#[derive(Drop)]
pub struct Windows {
    pub(crate) alloc: Global,
    windows: CowVec<WinCell>,
    opened: Vec<WinId>,
    pages: Pages,
    pub(crate) acts: Acts,
}

impl Model for Windows {
    ghost use Rattle.ff_machine.specs.Windows as machine;
    ghost use Rattle.ff_machine.specs.Codes.{coded_windows};

    ghost Value = { machine.Windows };

    ghost coded = { coded_windows };

    ghost use Rattle.ff_machine.specs.Alone.{AreWindows};

    ghost view = { λ s. record {
      windows = s.windows;
      opened = s.opened.items;
      pages = s.pages;
      acts = s.acts;
    } };

    ghost invariant = { λ s. AreWindows (record
        { windows = s.windows; opened = s.opened.items; pages = s.pages; acts = s.acts }) };
}

impl Windows {
    /// Nothing was made. It takes no memory; what is made is taken from `alloc`.
    pub fn new(alloc: Global) -> Windows
        ensures { result ≡ w.empty }
    {
        Windows {
            alloc,
            windows: CowVec::new(alloc),
            opened: Vec::new(alloc),
            pages: Pages::new(alloc),
            acts: Acts::new(alloc),
        }
    }

    /// The store of these, which are valid together.
    pub(crate) fn of(
        alloc: Global,
        windows: CowVec<WinCell>,
        opened: Vec<WinId>,
        pages: Pages,
        acts: Acts,
    ) -> Windows
        requires { AreWindows (record {
          windows = windows;
          opened = opened.items;
          pages = pages;
          acts = acts;
        }) }
        ensures { result ≡ record {
          windows = windows;
          opened = opened.items;
          pages = pages;
          acts =
              acts;
        } }
    {
        Windows {
            alloc,
            windows,
            opened,
            pages,
            acts,
        }
    }

    /// Equal windows, pages and activations that share their cells with these: none is copied, and
    /// no later change of one of the two is seen in the other. It is refused only for want of
    /// memory.
    pub fn fork<C: Ledger>(&self, copies: &mut Steps<C>) -> Result<Windows, NoMemory>
        ensures equal { IfOk result (λ windows. windows ≡ self.now) }
        ensures copies { copies.new ≡ copies.old }
    {
        Ok(Windows {
            alloc: self.alloc,
            windows: self.windows.fork(copies)?,
            opened: self.opened.clone()?,
            pages: self.pages.fork(copies)?,
            acts: self.acts.fork(copies)?,
        })
    }

    pub(crate) fn alloc(&self) -> Global
        ensures { AreWindows self.now }
    {
        self.alloc
    }

    pub(crate) fn acts(&self) -> &Acts
        ensures value { result.now ≡ self.now.acts }
        ensures valid { AreWindows self.now }
    {
        &self.acts
    }

    /// The open windows in order.
    pub(crate) fn opened(&self) -> &[WinId]
        ensures value { result.now ≡ self.now.opened }
        ensures valid { AreWindows self.now }
    {
        self.opened.as_slice()
    }

    /// How many windows there are.
    pub(crate) fn count_windows(&self) -> u32
        ensures { result ≡ length self.now.windows }
    {
        self.windows.len()
    }

    /// How many pages there are.
    pub(crate) fn count_pages(&self) -> u32
        ensures { result ≡ length self.now.pages }
    {
        self.pages.len()
    }

    /// Whether the queue of a page begins with a script, of any page, that of a closed window too.
    pub(crate) fn any_ready(&self) -> bool
        ensures none { result ≡ false → (p : PageId)
            → is_some (first_ready (w.page_at self.now p).queue) ≡ false }
    {
        self.pages.any_ready()
    }

    pub(crate) fn window(&self, n: WinId) -> &WinCell
        requires { n.0 < length self.now.windows }
        ensures value { result.now ≡ w.window_at self.now n }
        ensures valid { AreWindows self.now }
    {
        match self.windows.get(n.0) {
            Some(cell) => cell,
            None => unreachable!(),
        }
    }

    pub(crate) fn page_of(&self, page: PageId) -> &PageCell
        requires { page.0 < length self.now.pages }
        ensures value { result.now ≡ w.page_at self.now page }
        ensures valid { AreWindows self.now }
    {
        match self.pages.get(page.0) {
            Some(cell) => cell,
            None => unreachable!(),
        }
    }

    /// Puts another window at a number that there is, which keeps all valid.
    pub(crate) fn set_window<C: Ledger>(
        &mut self,
        n: WinId,
        cell: WinCell,
        copies: &mut Steps<C>,
    ) -> Result<(), NoMemory>
        requires there { n.0 < length self.old.windows }
        requires keeps { AreWindows (w.set_window self.old n cell) }
        ensures done { OnOk result (self.new ≡ w.set_window self.old n cell) }
        ensures copies { RisesBy 16 copies.old copies.new }
    {
        let Ok(()) = self.windows.set(n.0, cell, copies) else {
            return Err(AllocError);
        };
        Ok(())
    }

    /// Puts another page at a number that there is, which keeps all valid.
    pub(crate) fn set_page<C: Ledger>(
        &mut self,
        page: PageId,
        cell: PageCell,
        copies: &mut Steps<C>,
    ) -> Result<(), NoMemory>
        requires there { page.0 < length self.old.pages }
        requires keeps { AreWindows (w.set_page self.old page cell) }
        ensures done { OnOk result (self.new ≡ w.set_page self.old page cell) }
        ensures copies { RisesBy 16 copies.old copies.new }
    {
        let Ok(()) = self.pages.set(page.0, cell, copies) else {
            return Err(AllocError);
        };
        Ok(())
    }

    /// Changes a page where it lies, at a number that there is, which keeps all valid.
    pub(crate) fn change_page<E: Edit<PageCell> + Drop, C: Ledger>(
        &mut self,
        page: PageId,
        edit: E,
        copies: &mut Steps<C>,
    ) -> Result<(), NoMemory>
        requires there { page.0 < length self.old.pages }
        requires keeps { AreWindows (w.set_page self.old page
            (E.edited edit (w.page_at self.old page))) }
        ensures done { OnOk result (self.new ≡ w.set_page self.old page
            (E.edited edit (w.page_at self.old page))) }
        ensures copies { RisesBy 16 copies.old copies.new }
    {
        let Ok(()) = self.pages.edit(page.0, edit, copies) else {
            return Err(AllocError);
        };
        Ok(())
    }

    /// Puts a window more, the last of the open ones, which keeps all valid.
    pub(crate) fn push_window<C: Ledger>(
        &mut self,
        n: WinId,
        cell: WinCell,
        copies: &mut Steps<C>,
    ) -> Result<(), NoMemory>
        requires keeps { AreWindows (record self.old
            { windows = self.old.windows ++ cell ∷ []; opened = self.old.opened ++ n ∷ [] }) }
        ensures done { OnOk result (self.new ≡ record self.old
            { windows = self.old.windows ++ cell ∷ []; opened = self.old.opened ++ n ∷ [] }) }
        ensures copies { RisesBy 15 copies.old copies.new }
    {
        let Ok(()) = self.opened.push(n) else {
            return Err(AllocError);
        };
        let Ok(()) = self.windows.push(cell, copies) else {
            *self = Windows::new(self.alloc);
            return Err(AllocError);
        };
        Ok(())
    }

    /// Puts a page more, with an activation without parent and variables, which keeps all valid.
    pub(crate) fn push_page<C: Ledger>(
        &mut self,
        cell: PageCell,
        copies: &mut Steps<C>,
    ) -> Result<(), NoMemory>
        requires room { length self.old.acts < MOST_ACTS }
        requires keeps { AreWindows (record self.old
            { pages = self.old.pages ++ cell ∷ []; acts = self.old.acts ++ w.no_act ∷ [] }) }
        ensures done { OnOk result (self.new ≡ record self.old
            { pages = self.old.pages ++ cell ∷ []; acts = self.old.acts ++ w.no_act ∷ [] }) }
        ensures copies { RisesBy 30 copies.old copies.new }
    {
        let Ok(()) = self.pages.push(cell, copies) else {
            return Err(AllocError);
        };
        let Ok(()) = self.acts.add(copies) else {
            *self = Windows::new(self.alloc);
            return Err(AllocError);
        };
        Ok(())
    }

    /// Takes a window out of the open ones.
    pub(crate) fn remove_opened(&mut self, n: WinId)
        requires { AreWindows (w.closed self.old n) }
        ensures { self.new ≡ w.closed self.old n }
    {
        self.opened.retain(|m| n.0 != m.0);
    }
}
