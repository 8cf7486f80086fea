//! The queues of scripts.
ghost use Rattle.std.specs.Prelude.{◌≡◌, ◌<◌, false, length, MatchOption, IfOk, OnOk};
ghost use Rattle.ff_contract.specs.Rises.{RisesBy};
ghost use Rattle.ff_machine.specs.Windows as w;
ghost use Rattle.ff_machine.specs.Windows.{first_ready};
ghost use Rattle.ff_machine.specs.declared.records.Entry.TheVariants.{Ready};
ghost use Rattle.ff_tree.specs.Spelled.{IsWellSpelledExpr};
ghost use Rattle.ff_windows.specs.Queues.{count_entries};

use crate::page::Pop;
use crate::windows::Windows;
use ff_contract::Steps;
use ff_cow::Cell;
use ff_machine::{MOST_ENTRIES, MOST_SLOTS};
use ff_name::NoMemory;
use ff_value::{Body, PageId};
use std::sync::ledger::Ledger;

impl Windows {
    /// Puts a well spelled script that may run at the end of a page's queue, where all queues
    /// together have room for an entry. It is refused only for want of memory.
    pub fn push_ready<C: Ledger>(
        &mut self,
        page: PageId,
        body: &Body,
        copies: &mut Steps<C>,
    ) -> Result<(), NoMemory>
        requires lives { page.0 < length self.old.pages }
        requires room { count_entries self.old < MOST_ENTRIES }
        requires spelled { IsWellSpelledExpr body.now }
        ensures done { OnOk result (self.new ≡ w.with_entry self.old page (Ready body.now)) }
        ensures copies { RisesBy 32 copies.old copies.new }
    {
        let mut cell = self.page_of(page).copy(copies)?;
        cell.push(body, copies)?;
        self.set_page(page, cell, copies)
    }

    /// Puts a slot that waits for its script at the end of a page's queue, where all queues
    /// together have room for an entry and the page for a slot, and answers the slot's number. It
    /// is refused only for want of memory.
    pub fn push_wait<C: Ledger>(
        &mut self,
        page: PageId,
        copies: &mut Steps<C>,
    ) -> Result<u32, NoMemory>
        requires lives { page.0 < length self.old.pages }
        requires room { count_entries self.old < MOST_ENTRIES }
        requires slots { (w.page_at self.old page).next < MOST_SLOTS }
        ensures done { OnOk result (self.new ≡ w.with_slot self.old page) }
        ensures number { IfOk result (λ slot. slot ≡ (w.page_at self.old page).next) }
        ensures copies { RisesBy 32 copies.old copies.new }
    {
        let slot = self.next_slot(page);
        let mut cell = self.page_of(page).copy(copies)?;
        cell.push_slot(copies)?;
        self.set_page(page, cell, copies)?;
        Ok(slot)
    }

    /// Puts a well spelled script into the slot of a number, and answers whether that slot waited;
    /// where it didn't, nothing has changed. It is refused only for want of memory.
    pub fn fill<C: Ledger>(
        &mut self,
        page: PageId,
        slot: u32,
        body: &Body,
        copies: &mut Steps<C>,
    ) -> Result<bool, NoMemory>
        requires lives { page.0 < length self.old.pages }
        requires spelled { IsWellSpelledExpr body.now }
        ensures done { OnOk result (self.new ≡ w.filled self.old page slot body.now) }
        ensures waits { IfOk result (λ b. b ≡ w.waits self.old page slot) }
        ensures unchanged { IfOk result (λ b. b ≡ false → self.new ≡ self.old) }
        ensures copies { RisesBy 33 copies.old copies.new }
    {
        let mut cell = self.page_of(page).copy(copies)?;
        let waits = cell.fill(slot, body, copies)?;
        if waits {
            self.set_page(page, cell, copies)?;
        }
        Ok(waits)
    }

    /// Takes out the script that a page's queue begins with. `None` exactly where the queue is
    /// empty or begins with a slot that waits; then nothing has changed. It is refused only for
    /// want of memory.
    pub fn pop_ready<C: Ledger>(
        &mut self,
        page: PageId,
        copies: &mut Steps<C>,
    ) -> Result<Option<Body>, NoMemory>
        requires { page.0 < length self.old.pages }
        ensures value { IfOk result (λ script. script
            ≡ first_ready (w.page_at self.old page).queue) }
        ensures done { IfOk result (λ script. MatchOption script (self.new ≡ self.old)
            (λ _. self.new ≡ w.popped self.old page)) }
        ensures copies { RisesBy 17 copies.old copies.new }
    {
        let Some(first) = self.page_of(page).first_ready() else {
            return Ok(None);
        };
        let script = first.copy()?;
        self.change_page(page, Pop, copies)?;
        Ok(Some(script))
    }
}
