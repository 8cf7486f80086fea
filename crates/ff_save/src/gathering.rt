//! The classes of a saved text, gathered from its lines.
ghost use Rattle.std.specs.Prelude.{◌≡◌, ◌≢◌, ◌≤◌, false, IfOk};
ghost use Rattle.ff_reactor.specs.declared.reactor.TheConstants.{MOST_BUDGET};
ghost use Rattle.ff_lattice.specs.declared.names.TheConstants.{MOST_LEVELS};
ghost use Rattle.ff_pool.specs.Restored.{IsResting};
ghost use Rattle.ff_records.specs.Restored.{Restores};
ghost use Rattle.ff_save.specs.Gathered.{Gathered, no_classes, saved_of};
ghost use Rattle.ff_save.specs.Holding.{Holds, AddsLine, AddsRow, Begins, Ends, held_by};
ghost use Rattle.ff_save.specs.Saved.{saved_recs};

use crate::restoring_stores::restore_stores;
use ff_contract::Steps;
use ff_lattice::{Lattice, LevelSet};
use ff_name::NoMemory;
use ff_pool::Pool;
use ff_restorable::Restorable;
use ff_saved_rows::{Draft, LineFault, Row, read_row};
use ff_shared::OwnedList;
use ff_text::MOST_BYTES;
use std::alloc::{AllocError, Global};
use std::mem;
use std::sync::ledger::Ledger;

/// The classes of a saved text as far as its lines were read. Each class but the last has its
/// browser.
#[derive(Drop)]
pub(crate) struct Gathering<B: Restorable> {
    alloc: Global,
    fuel: u32,
    classes: Vec<LevelSet>,
    browsers: Vec<B>,
    draft: Draft,
}

impl<B: Restorable> Gathering<B> {
    /// Nothing was read. Browsers get so much fuel by each input. It takes no memory.
    pub(crate) fn new(alloc: Global, fuel: u32) -> Gathering<B>
        requires some { 1 ≤ fuel }
        requires few { fuel ≤ MOST_BUDGET }
        ensures { Holds fuel no_classes (held_by B.state result) }
    {
        Gathering {
            alloc,
            fuel,
            classes: Vec::new(alloc),
            browsers: Vec::new(alloc),
            draft: Draft::new(alloc),
        }
    }

    /// A line more. False where it can't be one of a saved text.
    pub(crate) fn add_line<C: Ledger>(
        &mut self,
        line: &[u8],
        lattice: &Lattice,
        copies: &mut Steps<C>,
    ) -> Result<bool, NoMemory>
        requires some { 1 ≤ self.old.fuel }
        requires few { self.old.fuel ≤ MOST_BUDGET }
        ensures value { (g : Gathered) → Holds self.old.fuel g (held_by B.state self.old)
            → IfOk result (λ found. AddsLine lattice.now self.old.fuel g line.now found
            (held_by B.state self.new)) }
        ensures later { copies.old ≤ copies.new }
    {
        if line.len() > MOST_BYTES {
            return Ok(false);
        }
        match read_row(self.alloc, line, lattice) {
            Ok(row) => self.add(row, copies),
            Err(fault) => no_row(fault),
        }
    }

    /// A row more. False where it belongs to nothing, and where it ends a class whose records no
    /// stores have.
    fn add<C: Ledger>(&mut self, row: Row, copies: &mut Steps<C>) -> Result<bool, NoMemory>
        requires some { 1 ≤ self.old.fuel }
        requires few { self.old.fuel ≤ MOST_BUDGET }
        ensures value { (g : Gathered) → Holds self.old.fuel g (held_by B.state self.old)
            → IfOk result (λ found. AddsRow self.old.fuel g row found (held_by B.state self.new)) }
        ensures later { copies.old ≤ copies.new }
    {
        match row {
            Row::Head => Ok(true),
            Row::Policy(_) => Ok(true),
            Row::End => Ok(true),
            Row::Class(levels) => self.begin_class(levels, copies),
            row => self.draft.add(row),
        }
    }

    /// Ends the last class, and begins one of these levels.
    fn begin_class<C: Ledger>(
        &mut self,
        levels: LevelSet,
        copies: &mut Steps<C>,
    ) -> Result<bool, NoMemory>
        requires some { 1 ≤ self.old.fuel }
        requires few { self.old.fuel ≤ MOST_BUDGET }
        ensures value { (g : Gathered) → Holds self.old.fuel g (held_by B.state self.old)
            → IfOk result (λ found. Begins self.old.fuel g levels found
            (held_by B.state self.new)) }
        ensures later { copies.old ≤ copies.new }
    {
        if !self.end_class(copies)? {
            return Ok(false);
        }
        self.classes.push(levels)?;
        Ok(true)
    }

    /// Makes the browser of the last class, if there is one. False where no stores have its
    /// records.
    fn end_class<C: Ledger>(&mut self, copies: &mut Steps<C>) -> Result<bool, NoMemory>
        requires some { 1 ≤ self.old.fuel }
        requires few { self.old.fuel ≤ MOST_BUDGET }
        ensures value { (g : Gathered) → Holds self.old.fuel g (held_by B.state self.old)
            → IfOk result (λ found. Ends self.old.fuel g found (held_by B.state self.new)) }
        ensures later { copies.old ≤ copies.new }
    {
        let draft = mem::replace(&mut self.draft, Draft::new(self.alloc));
        if self.classes.is_empty() {
            return Ok(true);
        }
        let recs = draft.finish()?;
        match restore_stores(self.alloc, &recs, copies)? {
            Some(stores) => {
                let browser = B::restore(self.alloc, self.fuel, stores);
                self.browsers.push(browser)?;
                Ok(true)
            }
            None => Ok(false),
        }
    }

    /// The pool of `n` levels at rest with these classes and browsers, or `None` where there is
    /// none.
    pub(crate) fn finish<C: Ledger>(
        self,
        n: u8,
        copies: &mut Steps<C>,
    ) -> Result<Option<Pool<B>>, NoMemory>
        requires some { 1 ≤ self.fuel }
        requires few { self.fuel ≤ MOST_BUDGET }
        requires most { n ≤ MOST_LEVELS }
        requires held { (g : Gathered) × Holds self.fuel g (held_by B.state self) }
        ensures value { (g : Gathered) → Holds self.fuel g (held_by B.state self)
            → IfOk result (Restores (IsResting n self.fuel) saved_recs (saved_of g)) }
        ensures later { copies.old ≤ copies.new }
    {
        let mut gathering = self;
        if !gathering.end_class(copies)? {
            return Ok(None);
        }
        let Gathering {
            alloc,
            fuel,
            classes,
            browsers,
            ..
        } = gathering;
        Pool::restore(
            alloc,
            n,
            fuel,
            classes.as_slice(),
            OwnedList::from_vec(browsers),
        )
    }
}

/// What is answered for a line that says no row: it is none of a saved text, or there was no
/// memory.
fn no_row(fault: LineFault) -> Result<bool, NoMemory>
    ensures { IfOk result (λ found. (found ≡ false) × (fault ≢ LineFault.NoMemory)) }
{
    match fault {
        LineFault::NoMemory => Err(AllocError),
        _ => Ok(false),
    }
}
