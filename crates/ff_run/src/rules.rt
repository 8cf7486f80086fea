//! The release rules of a command, by their name.
ghost use Rattle.std.specs.Prelude.{◌≡◌};
ghost use Rattle.ff_run.specs.Rules.{rules_for};

use crate::NoMemory;
use crate::named::Named;
use ff_contract::Steps;
use ff_policy::Policy;
use ff_release::{MOST_RULES_BYTES, ReleaseFail, Rules};
use ff_status::Status;
use std::alloc::Global;
use std::sync::ledger::Ledger;

/// How many bytes of a rules file count: one more than rules may have.
const MOST_FETCHED: usize = MOST_RULES_BYTES + 1;

/// The release rules of a name, for the levels of a policy: none where it is `-`, and else those of
/// the file.
#[derive(Clone, Copy)]
pub(crate) struct RulesFile<'a> {
    pub(crate) policy: &'a Policy,
}

impl Named for RulesFile<'_> {
    ghost use Rattle.std.specs.Prelude.{◌≡◌};
    ghost use Rattle.ff_run.specs.Rules.{rules_for};

    type Found = Rules;

    ghost kind = { λ file. rules_for file.policy.now.order };

    ghost copied = { λ _ before now. now ≡ before };

    fn most(&self) -> usize {
        MOST_FETCHED
    }

    fn at_dash(&self, alloc: Global) -> Result<Rules, NoMemory> {
        Ok(Rules::none(alloc))
    }

    /// The rules of the bytes. Else the run ends with `Release` and their fault, or for want of
    /// memory.
    fn read<C: Ledger>(
        &self,
        alloc: Global,
        bytes: &[u8],
        _copies: &mut Steps<C>,
    ) -> Result<Rules, Status> {
        let lattice = self.policy.lattice();
        match Rules::read(alloc, bytes, lattice) {
            Ok(rules) => Ok(rules),
            Err(ReleaseFail::Fault(fault)) => Err(Status::Release(fault)),
            Err(ReleaseFail::NoMemory) => Err(Status::NoMemory),
        }
    }
}
