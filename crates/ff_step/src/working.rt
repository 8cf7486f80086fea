//! The work of one fuel on a task.
ghost use Rattle.std.specs.Prelude.{◌≡◌, ◌+◌, ◌<◌, ◌≤◌, ◌++◌, [], ◌∷◌, length, OnErr, OnOk};
ghost use Rattle.ff_contract.specs.Rises.{RisesBy};
ghost use Rattle.ff_machine.specs.Answers.{Works};
ghost use Rattle.ff_machine.specs.Turns as turns;
ghost use Rattle.ff_machine.specs.Valid.{IsStores, IsTask};
ghost use Rattle.ff_machine.specs.Windows.{is_live};
ghost use Rattle.ff_frames.specs.Emptied.{emptied};
ghost use Rattle.ff_step.specs.Copies.{worked_on};
ghost use Rattle.ff_step.specs.Left.{left};

use crate::reducing::reduce_redex;
use crate::task::Task;
use ff_contract::Steps;
use ff_name::NoMemory;
use ff_operators::Fail;
use ff_store_operators::Stores;
use ff_value::{Fault, Out, PageId};
use std::alloc::{AllocError, Global};
use std::sync::ledger::Ledger;

impl Task {
    /// What one fuel makes of the task: one reduction, where its page is live; answers whether it
    /// goes on. It is gone where its page isn't live, where it is a value, and where it failed:
    /// then its error is put, at the place of the page's window. After want of memory it runs
    /// `null`.
    pub fn work<C: Ledger>(
        &mut self,
        alloc: Global,
        stores: &mut Stores,
        outs: &mut Vec<Out>,
        copies: &mut Steps<C>,
    ) -> Result<bool, NoMemory>
        requires { IsTask stores.old self.old }
        ensures works { Works (turns.work stores.old self.old) (left self.new result) stores.new
            outs.old.items outs.new.items }
        ensures later { copies.old ≤ copies.new }
        ensures emptied { OnErr result (self.new
            ≡ record { page = self.old.page; running = emptied }) }
        ensures copies { copies.new ≤ copies.old + worked_on stores.old self.old }
    {
        match self.make(alloc, stores, outs, copies) {
            Ok(goes_on) => Ok(goes_on),
            Err(error) => {
                self.control.clear(alloc);
                Err(error)
            }
        }
    }

    /// The same, but for what is left after want of memory.
    fn make<C: Ledger>(
        &mut self,
        alloc: Global,
        stores: &mut Stores,
        outs: &mut Vec<Out>,
        copies: &mut Steps<C>,
    ) -> Result<bool, NoMemory>
        requires { IsTask stores.old self.old }
        ensures works { Works (turns.work stores.old self.old) (left self.new result) stores.new
            outs.old.items outs.new.items }
        ensures page { self.new.page ≡ self.old.page }
        ensures copies { RisesBy (worked_on stores.old self.old) copies.old copies.new }
    {
        let page = self.page;
        if !lives(stores, page) {
            return Ok(false);
        }
        if let Some(_value) = self.control.done() {
            return Ok(false);
        }
        match reduce_redex(alloc, &mut self.control, stores, page, outs, copies) {
            Ok(()) => Ok(true),
            Err(Fail::Fault(fault)) => {
                put_error(stores, page, fault, outs)?;
                Ok(false)
            }
            Err(Fail::NoMemory) => Err(AllocError),
        }
    }
}

/// Puts the error of a task of a page, at the place of the page's window.
#[cold]
#[inline(never)]
fn put_error(
    stores: &Stores,
    page: PageId,
    fault: Fault,
    outs: &mut Vec<Out>,
) -> Result<(), NoMemory>
    requires { page.0 < length stores.now.windows.pages }
    ensures done { OnOk result (outs.new.items
        ≡ outs.old.items ++ turns.error_at stores.now page fault ∷ []) }
    ensures kept { OnErr result (outs.new.items ≡ outs.old.items) }
{
    let windows = stores.windows();
    let place = windows.position(windows.win_of(page)).unwrap_or(0);
    outs.push(Out::Error(place, fault))?;
    Ok(())
}

/// Whether a page is live: that of an open window.
fn lives(stores: &Stores, page: PageId) -> bool
    ensures value { result ≡ is_live stores.now.windows page }
    ensures valid { IsStores stores.now }
{
    stores.windows().live(page)
}
