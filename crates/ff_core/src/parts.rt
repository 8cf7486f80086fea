//! What a browser holds, whether that is a valid state or not.
//!
//! Nothing is said of it but that its stores are valid; that all of it is, is the invariant of
//! `Browser`. So the steps of an input change the parts one after another, and validity is owed
//! once, at the return, by the law that steps keep states valid.
ghost use Rattle.std.specs.Prelude.{◌≡◌, IfOk};
ghost use Rattle.ff_machine.specs.State as state;
ghost use Rattle.ff_restorable.specs.Resting.{resting};

use ff_contract::Steps;
use ff_name::NoMemory;
use ff_step::Task;
use ff_stores::Stores;
use std::alloc::Global;
use std::collections::VecDeque;
use std::marker::Model;
use std::sync::ledger::Ledger;

/// The stores, the fuel that each input brings, the fuel that is left, the tasks in order, and
/// whether an input may come. The stores are valid; of the rest nothing is said.
#[derive(Drop)]
pub(crate) struct Parts {
    pub(crate) alloc: Global,
    pub(crate) stores: Stores,
    pub(crate) budget: u32,
    pub(crate) fuel: u32,
    pub(crate) tasks: VecDeque<Task>,
    pub(crate) quiet: bool,
}

impl Model for Parts {
    ghost use Rattle.ff_machine.specs.State as record_of;
    ghost use Rattle.ff_machine.specs.Codes.{coded_state};

    ghost Value = { record_of.State };

    ghost coded = { coded_state };

    ghost use Rattle.ff_core.specs.Views.{state_of};

    ghost view = { state_of };
}

impl Parts {
    /// Nothing was made, and nothing is left to do. It takes no memory.
    pub(crate) fn new(alloc: Global, budget: u32) -> Parts
        ensures { result ≡ state.empty budget }
    {
        Parts {
            alloc,
            stores: Stores::new(alloc),
            budget,
            fuel: 0,
            tasks: VecDeque::new(alloc),
            quiet: true,
        }
    }

    /// These stores, with nothing left to do. It takes no memory.
    pub(crate) fn resting(alloc: Global, budget: u32, stores: Stores) -> Parts
        ensures { result ≡ resting budget stores }
    {
        Parts {
            alloc,
            stores,
            budget,
            fuel: 0,
            tasks: VecDeque::new(alloc),
            quiet: true,
        }
    }

    /// All that was made is dropped, and nothing is left to do.
    #[cold]
    #[inline(never)]
    pub(crate) fn reset(&mut self, budget: u32)
        ensures { self.new ≡ state.empty budget }
    {
        *self = Parts::new(self.alloc, budget);
    }

    /// An equal state: no cell of the stores is copied.
    pub(crate) fn fork<C: Ledger>(&self, copies: &mut Steps<C>) -> Result<Parts, NoMemory>
        ensures equal { IfOk result (λ fork. fork ≡ self.now) }
        ensures copies { copies.new ≡ copies.old }
    {
        let stores = self.stores.fork(copies)?;
        let mut tasks = VecDeque::new(self.alloc);
        for task in self.tasks.iter() {
            tasks.push_back(task.fork(self.alloc)?)?;
        }
        Ok(Parts {
            alloc: self.alloc,
            stores,
            budget: self.budget,
            fuel: self.fuel,
            tasks,
            quiet: self.quiet,
        })
    }
}
