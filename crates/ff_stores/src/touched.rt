//! The pages that were changed since the browser was last quiet.
ghost use Rattle.std.specs.Prelude.{◌≡◌, true, IfOk, OnOk, OnErr};
ghost use Rattle.std.specs.FinSet as finset;

use ff_name::NoMemory;
use ff_value::PageId;
use std::alloc::Global;
use std::marker::Model;

/// A set of pages, held as their numbers in no order, none of them twice.
#[derive(Drop)]
pub(crate) struct Touched {
    alloc: Global,
    pages: Vec<u32>,
}

impl Model for Touched {
    ghost use Rattle.std.specs.FinSet as finset;
    ghost use Rattle.std.specs.Coded.{coded_ℕ};
    ghost use Rattle.ff_machine.specs.Stores as stores;

    ghost Value = { stores.Pages };

    ghost coded = { finset.code coded_ℕ };

    ghost view = { λ t. finset.from_list t.pages.items };
}

impl Touched {
    /// No pages, which take no memory.
    pub(crate) fn new(alloc: Global) -> Touched
        ensures { result ≡ finset.empty }
    {
        Touched {
            alloc,
            pages: Vec::new(alloc),
        }
    }

    /// Whether there are none.
    pub(crate) fn is_empty(&self) -> bool
        ensures { result ≡ true → self.now ≡ finset.empty }
    {
        self.pages.is_empty()
    }

    /// Whether the page is one of them.
    pub(crate) fn has(&self, page: PageId) -> bool
        ensures { result ≡ finset.contains self.now page.0 }
    {
        self.pages.contains(&page.0)
    }

    /// Adds a page, if it isn't there. After want of memory the pages are as they were.
    pub(crate) fn add(&mut self, page: PageId) -> Result<(), NoMemory>
        ensures done { OnOk result (self.new ≡ finset.insert self.old page.0) }
        ensures kept { OnErr result (self.new ≡ self.old) }
    {
        if !self.pages.contains(&page.0) {
            self.pages.push(page.0)?;
        }
        Ok(())
    }

    /// The same pages.
    pub(crate) fn copy(&self) -> Result<Touched, NoMemory>
        ensures { IfOk result (λ pages. pages ≡ self.now) }
    {
        Ok(Touched {
            alloc: self.alloc,
            pages: self.pages.clone()?,
        })
    }
}
