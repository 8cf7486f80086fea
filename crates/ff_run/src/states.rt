//! The copies that a resumed run begins with, by the name of their saved text.
ghost use Rattle.std.specs.Prelude.{◌≤◌};
ghost use Rattle.ff_run.specs.States.{states_under};

use crate::NoMemory;
use crate::named::Named;
use ff_contract::Steps;
use ff_core::Browser;
use ff_policy::Policy;
use ff_pool::Pool;
use ff_save::{MOST_SAVED_BYTES, SavedFail, read_saved};
use ff_session::new_pool;
use ff_status::Status;
use std::alloc::Global;
use std::sync::ledger::Ledger;

/// How many bytes of a saved state's file count: one more than a saved text may have.
const MOST_FETCHED: usize = MOST_SAVED_BYTES as usize + 1;

/// The copies of a name, for the levels of a policy: new ones where it is `-`, and else those whose
/// saved text the file is.
#[derive(Clone, Copy)]
pub(crate) struct StateFile<'a> {
    pub(crate) policy: &'a Policy,
}

impl Named for StateFile<'_> {
    ghost use Rattle.std.specs.Prelude.{◌≤◌};
    ghost use Rattle.ff_run.specs.States.{states_under};

    type Found = Pool<Browser>;

    ghost kind = { λ file. states_under file.policy.now };

    ghost copied = { λ _ before now. before ≤ now };

    fn most(&self) -> usize {
        MOST_FETCHED
    }

    fn at_dash(&self, alloc: Global) -> Result<Pool<Browser>, NoMemory> {
        new_pool(alloc, self.policy)
    }

    /// The copies of the bytes. Else the run ends with `Saved` and their fault, or for want of
    /// memory.
    fn read<C: Ledger>(
        &self,
        alloc: Global,
        bytes: &[u8],
        copies: &mut Steps<C>,
    ) -> Result<Pool<Browser>, Status> {
        match read_saved(alloc, self.policy, bytes, copies) {
            Ok(pool) => Ok(pool),
            Err(SavedFail::Fault(fault)) => Err(Status::Saved(fault)),
            Err(SavedFail::NoMemory) => Err(Status::NoMemory),
        }
    }
}
