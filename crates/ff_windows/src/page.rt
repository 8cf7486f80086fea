//! A page as a cell of a list.
ghost use Rattle.std.specs.Prelude.{◌≡◌, ◌<◌, ◌≤◌, suc, [], ◌∷◌, ◌++◌, map, drop, length, filter_map, nat_eq, is_some, IfOk, OnOk};
ghost use Rattle.std.specs.List.{IsDistinct, list_any};
ghost use Rattle.std.specs.Option.{option_copied};
ghost use Rattle.ff_contract.specs.Rises.{RisesBy};
ghost use Rattle.ff_machine.specs.Alone.{waiting};
ghost use Rattle.ff_machine.specs.Windows.{new_page, fill_entry, is_slot, first_ready};
ghost use Rattle.ff_machine.specs.declared.records.Entry.TheVariants.{Ready, Wait};
ghost use Rattle.ff_records.specs.Records.{page_rec};
ghost use Rattle.ff_windows.specs.Recorded.{page_of};

use crate::queue::Queue;
use ff_contract::Steps;
use ff_cow::{Cell, Edit};
use ff_machine::{Entry, MOST_SLOTS};
use ff_name::{NoMemory, Url};
use ff_records::PageRec;
use ff_value::{ActId, Body, NodeId, WinId};
use std::alloc::Global;
use std::marker::Model;
use std::sync::ledger::Ledger;

/// A page: its address, window, root, activation, the number of its next slot, and the queue of its
/// scripts.
#[derive(Drop)]
pub(crate) struct PageCell {
    url: Url,
    win: WinId,
    root: NodeId,
    act: ActId,
    next: u32,
    queue: Queue,
}

impl Model for PageCell {
    ghost use Rattle.ff_machine.specs.Codes.{coded_page};
    ghost use Rattle.ff_machine.specs.Windows.{Page};

    ghost Value = { Page };

    ghost coded = { coded_page };

    ghost view = { λ p. record {
      url = p.url;
      win = p.win;
      root = p.root;
      act = p.act;
      next =
          p.next;
      queue = p.queue;
    } };
}

impl PageCell {
    /// A page at its beginning.
    pub(crate) fn of(
        alloc: Global,
        url: &Url,
        win: WinId,
        root: NodeId,
        act: ActId,
    ) -> Result<PageCell, NoMemory>
        ensures { IfOk result (λ page. page ≡ new_page url.now win root act) }
    {
        Ok(PageCell {
            url: url.copy()?,
            win,
            root,
            act,
            next: 0,
            queue: Queue::new(alloc),
        })
    }

    /// The page of a record, whose address and scripts it shares.
    pub(crate) fn restored<C: Ledger>(
        alloc: Global,
        rec: &PageRec,
        copies: &mut Steps<C>,
    ) -> Result<PageCell, NoMemory>
        ensures value { IfOk result (λ page. page ≡ page_of rec.now) }
        ensures later { copies.old ≤ copies.new }
    {
        Ok(PageCell {
            url: rec.url.copy()?,
            win: rec.win,
            root: rec.root,
            act: rec.act,
            next: rec.next,
            queue: Queue::restored(alloc, rec.queue.as_slice(), copies)?,
        })
    }

    /// The page as a record, which shares its address and its scripts.
    pub(crate) fn record(&self, alloc: Global) -> Result<PageRec, NoMemory>
        ensures { IfOk result (λ rec. rec ≡ page_rec self.now) }
    {
        Ok(PageRec {
            url: self.url.copy()?,
            win: self.win,
            root: self.root,
            act: self.act,
            next: self.next,
            queue: self.queue.record(alloc)?,
        })
    }

    pub(crate) fn url(&self) -> &Url
        ensures { result.now ≡ self.now.url }
    {
        &self.url
    }

    pub(crate) fn win(&self) -> WinId
        ensures { result ≡ self.now.win }
    {
        self.win
    }

    pub(crate) fn root(&self) -> NodeId
        ensures { result ≡ self.now.root }
    {
        self.root
    }

    pub(crate) fn act(&self) -> ActId
        ensures { result ≡ self.now.act }
    {
        self.act
    }

    pub(crate) fn next(&self) -> u32
        ensures { result ≡ self.now.next }
    {
        self.next
    }

    /// How many entries the queue has.
    pub(crate) fn queue_len(&self) -> u32
        ensures { result ≡ length self.now.queue }
    {
        self.queue.len()
    }

    /// The script that the queue begins with, if it does.
    pub(crate) fn first_ready(&self) -> Option<&Body>
        ensures { option_copied result ≡ first_ready self.now.queue }
    {
        match self.queue.first() {
            Some(Entry::Ready(body)) => Some(body),
            _ => None,
        }
    }

    /// Whether the queue begins with a script.
    pub(crate) fn is_ready(&self) -> bool
        ensures { result ≡ is_some (first_ready self.now.queue) }
    {
        self.first_ready().is_some()
    }

    /// Puts a script at the end of the queue. It is refused only for want of memory.
    pub(crate) fn push<C: Ledger>(
        &mut self,
        body: &Body,
        copies: &mut Steps<C>,
    ) -> Result<(), NoMemory>
        ensures done { OnOk result (self.new ≡ record self.old
            { queue = self.old.queue ++ Ready body.now ∷ [] }) }
        ensures copies { RisesBy 15 copies.old copies.new }
    {
        self.queue.push(Entry::Ready(body.copy()?), copies)
    }

    /// Puts a waiting slot of the next number at the end of the queue. It is refused only for want
    /// of memory.
    pub(crate) fn push_slot<C: Ledger>(&mut self, copies: &mut Steps<C>) -> Result<(), NoMemory>
        requires { self.old.next < MOST_SLOTS }
        ensures done { OnOk result (self.new ≡ record self.old
            { queue = self.old.queue ++ Wait self.old.next ∷ []; next = suc self.old.next }) }
        ensures copies { RisesBy 15 copies.old copies.new }
    {
        self.queue.push(Entry::Wait(self.next), copies)?;
        self.next += 1;
        Ok(())
    }

    /// Puts a script into the slot of a number, where it waits, and answers whether it does.
    pub(crate) fn fill<C: Ledger>(
        &mut self,
        slot: u32,
        body: &Body,
        copies: &mut Steps<C>,
    ) -> Result<bool, NoMemory>
        requires { IsDistinct nat_eq (filter_map waiting self.old.queue) }
        ensures done { OnOk result (self.new ≡ record self.old
            { queue = map (fill_entry slot body.now) self.old.queue }) }
        ensures waits { IfOk result (λ b. b ≡ list_any (is_slot slot) self.old.queue) }
        ensures copies { RisesBy 16 copies.old copies.new }
    {
        self.queue.fill(slot, body, copies)
    }
}

/// The first entry leaves the queue, where there is one.
#[derive(Drop)]
pub(crate) struct Pop;

impl Edit<PageCell> for Pop {
    ghost edited = { λ _ page. record page { queue = drop 1 page.queue } };

    fn edit(self, page: &mut PageCell) {
        page.queue.pop();
    }
}

impl<C: Ledger> Cell<C> for PageCell {
    fn copy(&self, copies: &mut Steps<C>) -> Result<PageCell, NoMemory> {
        copies.tick();
        Ok(PageCell {
            url: self.url.copy()?,
            win: self.win,
            root: self.root,
            act: self.act,
            next: self.next,
            queue: self.queue.fork(copies)?,
        })
    }
}
