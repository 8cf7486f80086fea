//! Scripts that may run, and settling.
ghost use Rattle.std.specs.Prelude.{◌≡◌, ◌<◌, ◌++◌, [], ◌∷◌, None, Some, cond, length, IfOk, OnOk, OnErr, MatchOption};
ghost use Rattle.std.specs.FinSet as finset;
ghost use Rattle.ff_contract.specs.Rises.{RisesBy};
ghost use Rattle.ff_contract.specs.Appending.{Appends};
ghost use Rattle.ff_machine.specs.Answers.{Makes};
ghost use Rattle.ff_machine.specs.Nodes as nodes;
ghost use Rattle.ff_machine.specs.Stores as s;
ghost use Rattle.ff_machine.specs.Windows as windows;

use crate::sending::put;
use crate::stores::Stores;
use crate::touched::Touched;
use ff_contract::Steps;
use ff_name::NoMemory;
use ff_value::{Body, Out, PageId, WinId};
use std::sync::ledger::Ledger;

impl Stores {
    /// Takes the first script that may run out of its queue; answers its page and it. `None`
    /// exactly where there is none, and then nothing has changed.
    pub fn take_ready<C: Ledger>(
        &mut self,
        copies: &mut Steps<C>,
    ) -> Result<Option<(PageId, Body)>, NoMemory>
        ensures done { IfOk result (λ taken. MatchOption taken
            ((s.take_ready self.old ≡ None) × (self.new ≡ self.old))
            (λ script. s.take_ready self.old ≡ Some ((script.0, script.1), self.new))) }
        ensures copies { RisesBy 17 copies.old copies.new }
    {
        match self.windows.ready() {
            None => Ok(None),
            Some(page) => self.pop_ready(page, copies),
        }
    }

    /// Takes the script that a page's queue begins with, if it does, out of the queue.
    fn pop_ready<C: Ledger>(
        &mut self,
        page: PageId,
        copies: &mut Steps<C>,
    ) -> Result<Option<(PageId, Body)>, NoMemory>
        requires { page.0 < length self.old.windows.pages }
        ensures done { IfOk result (λ taken. MatchOption taken
            ((s.popped_of self.old (Some page) ≡ None) × (self.new ≡ self.old))
            (λ script. s.popped_of self.old (Some page) ≡ Some ((script.0, script.1), self.new))) }
        ensures copies { RisesBy 17 copies.old copies.new }
    {
        match self.windows.pop_ready(page, copies) {
            Ok(Some(body)) => Ok(Some((page, body))),
            Ok(None) => Ok(None),
            Err(refused) => {
                nothing_left!(self);
                Err(refused)
            }
        }
    }

    /// What was changed is put, as the user sees it, for the open windows in their order. Then
    /// nothing counts as changed.
    pub fn settle(&mut self, outs: &mut Vec<Out>) -> Result<(), NoMemory>
        ensures step { Makes self.old self.new outs.old.items outs.new.items (s.settle self.old)
            result }
    {
        self.put_changed(outs)?;
        self.touched = Touched::new(self.alloc);
        Ok(())
    }

    /// Puts what the user sees of the open windows whose pages were changed. Where none was, no
    /// window is asked.
    fn put_changed(&self, outs: &mut Vec<Out>) -> Result<(), NoMemory>
        ensures { Appends result outs.old.items outs.new.items
            (s.updates_from self.now 0 self.now.windows.opened) }
    {
        if self.touched.is_empty() {
            return Ok(());
        }
        self.put_updates(outs)
    }

    /// Puts what the user sees of the open windows whose pages were changed, window by window.
    fn put_updates(&self, outs: &mut Vec<Out>) -> Result<(), NoMemory>
        ensures { Appends result outs.old.items outs.new.items
            (s.updates_from self.now 0 self.now.windows.opened) }
    {
        let mut at = 0;
        while let Some(window) = self.windows.at(at) {
            self.put_update(at, window, outs)?;
            at += 1;
        }
        Ok(())
    }

    /// Puts what the user sees of a window at a place, if its page was changed.
    fn put_update(&self, at: u32, window: WinId, outs: &mut Vec<Out>) -> Result<(), NoMemory>
        requires { window.0 < length self.now.windows.windows }
        ensures done { OnOk result (outs.new.items
            ≡ outs.old.items ++ cond (finset.contains self.now.touched
            (windows.window_at self.now.windows window).page.0)
            (Out.Updated at (nodes.shown self.now.nodes
            (windows.page_at self.now.windows (windows.window_at self.now.windows
            window).page).root) ∷ []) []) }
        ensures kept { OnErr result (outs.new.items ≡ outs.old.items) }
    {
        let page = self.windows.page(window);
        if !self.touched.has(page) {
            return Ok(());
        }
        let root = self.windows.root_of(page);
        let shown = self.nodes.shown(root)?;
        put(outs, Out::Updated(at, shown))
    }
}
