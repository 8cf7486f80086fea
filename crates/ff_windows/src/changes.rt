//! Pages and windows that are made, shown and closed.
ghost use Rattle.std.specs.Prelude.{◌≡◌, ◌<◌, ◌≤◌, length, IsTrue, IfOk, OnOk};
ghost use Rattle.std.specs.Option.{option_copied, ForSome};
ghost use Rattle.ff_contract.specs.Rises.{RisesBy};
ghost use Rattle.ff_machine.specs.Windows as w;
ghost use Rattle.ff_name.specs.Address.{IsWellSpelled};
ghost use Rattle.ff_operators.specs.Answers.{Answers, OnFault};

use crate::page::PageCell;
use crate::window::WinCell;
use crate::windows::Windows;
use ff_contract::Steps;
use ff_cow::Cell;
use ff_machine::MOST_WINDOWS;
use ff_name::{NoMemory, Text, Url};
use ff_operators::Fail;
use ff_value::{Fault, NodeId, PageId, WinId};
use std::sync::ledger::Ledger;

impl Windows {
    /// Makes a page, with an activation of its own that has no parent. Its window is one that there
    /// is or the next one, and its address is well spelled. It is refused with `Limit` exactly
    /// where there is no room for a page or an activation, and then nothing has changed.
    pub fn add_page<C: Ledger>(
        &mut self,
        url: &Url,
        win: WinId,
        root: NodeId,
        copies: &mut Steps<C>,
    ) -> Result<PageId, Fail>
        requires win { win.0 ≤ length self.old.windows }
        requires spelled { IsWellSpelled url.now }
        ensures done { OnOk result (self.new ≡ w.with_page self.old url.now win root) }
        ensures number { IfOk result (λ page. page ≡ w.next_page self.old) }
        ensures answer { Answers (w.page_fault self.old) result }
        ensures kept { OnFault result (self.new ≡ self.old) }
        ensures copies { RisesBy 30 copies.old copies.new }
    {
        if !self.room() {
            return Err(Fail::Fault(Fault::Limit));
        }
        let page = self.next_page();
        let act = self.next_act();
        let cell = PageCell::of(self.alloc(), url, win, root, act)?;
        self.push_page(cell, copies)?;
        Ok(page)
    }

    /// Opens a window with a page, the last of the open ones. Its opener, if it has one, is a
    /// window that there is, and its page one whose window is the next one. It is refused with
    /// `Limit` exactly where 64 windows are open, and then nothing has changed.
    pub fn add_window<C: Ledger>(
        &mut self,
        name: Option<&Text>,
        opener: Option<WinId>,
        page: PageId,
        copies: &mut Steps<C>,
    ) -> Result<WinId, Fail>
        requires lives { page.0 < length self.old.pages }
        requires opener_lives { ForSome opener (λ o. o.0 < length self.old.windows) }
        requires of_it { (w.page_at self.old page).win ≡ w.next_win self.old }
        ensures done { OnOk result (self.new ≡ w.with_window self.old (option_copied name.entry)
            opener page) }
        ensures number { IfOk result (λ n. n ≡ w.next_win self.old) }
        ensures answer { Answers (w.window_fault self.old) result }
        ensures kept { OnFault result (self.new ≡ self.old) }
        ensures copies { RisesBy 15 copies.old copies.new }
    {
        if self.opened().len() >= MOST_WINDOWS {
            return Err(Fail::Fault(Fault::Limit));
        }
        let n = self.next_win();
        let cell = WinCell::of(name, opener, page)?;
        self.push_window(n, cell, copies)?;
        Ok(n)
    }

    /// An open window shows another page of its own. It is refused only for want of memory.
    pub fn show_page<C: Ledger>(
        &mut self,
        n: WinId,
        page: PageId,
        copies: &mut Steps<C>,
    ) -> Result<(), NoMemory>
        requires is_open { IsTrue (w.is_open self.old n) }
        requires lives { page.0 < length self.old.pages }
        requires of_it { (w.page_at self.old page).win ≡ n }
        ensures done { OnOk result (self.new ≡ w.page_shown self.old n page) }
        ensures copies { RisesBy 17 copies.old copies.new }
    {
        let _known = self.opened();
        let mut cell = self.window(n).copy(copies)?;
        cell.show(page);
        self.set_window(n, cell, copies)
    }

    /// Takes a window out of the open ones, and answers whether it was open. It stays a window, and
    /// its page a page. The call takes no memory.
    pub fn close<C: Ledger>(&mut self, n: WinId, copies: &mut Steps<C>) -> Result<bool, NoMemory>
        ensures done { OnOk result (self.new ≡ w.closed self.old n) }
        ensures was { IfOk result (λ b. b ≡ w.is_open self.old n) }
        ensures copies { copies.new ≡ copies.old }
    {
        let was = self.is_open(n);
        let _known = self.opened();
        self.remove_opened(n);
        Ok(was)
    }
}
