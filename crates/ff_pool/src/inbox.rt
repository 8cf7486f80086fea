//! The inputs that wait for a browser.
ghost use Rattle.std.specs.Prelude.{◌≡◌, ◌==◌, ◌≤◌, ◌<◌, ◌++◌, ◌∷◌, [], None, length, IfOk, OnErr, OnOk};
ghost use Rattle.std.specs.List.{cons_option};

use ff_contract::Steps;
use ff_cow::{Cell, CowVec, MOST_CELLS};
use ff_name::NoMemory;
use ff_value::Input;
use std::alloc::{AllocError, Global};
use std::marker::{Brand, Model};
use std::mem;
use std::sync::ledger::{Blank, Ledger};

/// How many inputs wait at most before they are put where forks share them.
const MOST_NEWER: usize = 16;

/// An input that waits, as a cell of a shared list.
#[derive(Drop)]
struct Waiting {
    input: Input,
}

impl Model for Waiting {
    ghost use Rattle.ff_value.specs.declared.input.Input.{Input};
    ghost use Rattle.ff_value.specs.contracts.input.Input.{the_row};

    ghost Value = { Input };

    ghost coded = { the_row.coded };

    ghost view = { λ waiting. waiting.input };
}

impl Waiting {
    fn of(input: Input) -> Waiting
        ensures { result ≡ input }
    {
        Waiting { input }
    }

    fn input(&self) -> &Input
        ensures { result.now ≡ self.now }
    {
        &self.input
    }
}

impl<C: Ledger> Cell<C> for Waiting {
    fn copy(&self, copies: &mut Steps<C>) -> Result<Waiting, NoMemory> {
        copies.tick();
        Ok(Waiting {
            input: self.input.copy()?,
        })
    }
}

/// The inputs that wait, in order. A fork shares all but the last sixteen of them, so many forks of
/// a long inbox hold it once.
pub(crate) struct Inbox {
    alloc: Global,
    /// What forks share.
    older: CowVec<Waiting>,
    /// How many of these were taken.
    taken: u32,
    /// What waits behind them.
    newer: Vec<Input>,
}

// Written out, so that the proof of a caller sees one call and not a part for each field.
impl Drop for Inbox {
    fn drop(self) {
        let Inbox {
            alloc: _,
            older: _older,
            taken: _,
            newer: _newer,
        } = self;
    }
}

impl Model for Inbox {
    ghost use Rattle.std.specs.Prelude.{◌≤◌, ◌++◌, List, drop, length};
    ghost use Rattle.std.specs.Coded.{coded_list};
    ghost use Rattle.ff_value.specs.declared.input.Input.{Input};
    ghost use Rattle.ff_value.specs.contracts.input.Input.{the_row};

    ghost Value = { List Input };

    ghost coded = { coded_list the_row.coded };

    ghost view = { λ i. drop i.taken i.older ++ i.newer.items };

    ghost invariant = { λ i. i.taken ≤ length i.older };
}

impl Inbox {
    /// Nothing waits.
    pub(crate) fn new(alloc: Global) -> Inbox
        ensures { result ≡ [] }
    {
        Inbox {
            alloc,
            older: CowVec::new(alloc),
            taken: 0,
            newer: Vec::new(alloc),
        }
    }

    /// Whether nothing waits.
    pub(crate) fn is_empty(&self) -> bool
        ensures { result ≡ (length self.now == 0) }
    {
        if self.taken < self.older.len() {
            return false;
        }
        self.newer.is_empty()
    }

    /// An input more waits, behind the others. Its one refusal is want of memory, after which
    /// nothing is said of what waits.
    pub(crate) fn push(&mut self, input: Input) -> Result<(), NoMemory>
        ensures { OnOk result (self.new ≡ self.old ++ input ∷ []) }
    {
        if self.newer.len() >= MOST_NEWER {
            self.share()?;
        }
        self.newer.push(input)?;
        Ok(())
    }

    /// Puts the newer inputs behind those that forks share, where there is room for them.
    fn share(&mut self) -> Result<(), NoMemory>
        ensures { OnOk result (self.new ≡ self.old) }
    {
        if self.taken == self.older.len() {
            self.older = CowVec::new(self.alloc);
            self.taken = 0;
        }
        if self.newer.len() > (MOST_CELLS - self.older.len()) as usize {
            return Ok(());
        }
        let newer = mem::replace(&mut self.newer, Vec::new(self.alloc));
        put_behind::<Brand>(&mut self.older, newer, Blank::new(1))
    }

    /// The first input that waits, which then waits no more. Its one refusal is want of memory,
    /// after which the inbox is as it was.
    pub(crate) fn take_first(&mut self) -> Result<Option<Input>, NoMemory>
        ensures kept { OnErr result (self.new ≡ self.old) }
        ensures taken { IfOk result (λ first. self.old ≡ cons_option first self.new) }
        ensures none { IfOk result (λ first. first ≡ None → self.old ≡ []) }
    {
        if self.taken < self.older.len() {
            let input = match self.older.get(self.taken) {
                Some(waiting) => waiting.input().copy()?,
                None => unreachable!(),
            };
            self.taken += 1;
            return Ok(Some(input));
        }
        if self.newer.is_empty() {
            return Ok(None);
        }
        Ok(Some(self.newer.remove(0)))
    }

    /// An equal inbox, and neither changes with the other. No cell of a store is copied.
    pub(crate) fn fork<C: Ledger>(&self, copies: &mut Steps<C>) -> Result<Inbox, NoMemory>
        ensures equal { IfOk result (λ inbox. inbox ≡ self.now) }
        ensures copies { copies.new ≡ copies.old }
    {
        Ok(Inbox {
            alloc: self.alloc,
            older: self.older.fork(copies)?,
            taken: self.taken,
            newer: inputs_again(self.alloc, self.newer.as_slice())?,
        })
    }
}

/// Puts inputs behind those of a shared list. Its counter of copies is nobody's: they are no cells
/// of a store.
fn put_behind<C: Ledger>(
    older: &mut CowVec<Waiting>,
    newer: Vec<Input>,
    blank: Blank,
) -> Result<(), NoMemory>
    requires name { blank.name ≡ C.name }
    requires parts { blank.parts ≡ C.parts }
    requires some { 0 < blank.parts }
    ensures done { OnOk result (older.new ≡ older.old ++ newer.items) }
    ensures longer { length older.old ≤ length older.new }
{
    let mut copied = Steps::<C>::new(blank);
    for input in newer {
        if older.push(Waiting::of(input), &mut copied).is_err() {
            return Err(AllocError);
        }
    }
    Ok(())
}

/// The same inputs once more.
fn inputs_again(alloc: Global, inputs: &[Input]) -> Result<Vec<Input>, NoMemory>
    ensures { IfOk result (λ copies. copies.items ≡ inputs.now) }
{
    let mut copies = Vec::new(alloc);
    for input in inputs {
        copies.push(input.copy()?)?;
    }
    Ok(copies)
}
