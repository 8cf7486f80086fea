//! The policy of a command, by its name.
ghost use Rattle.std.specs.Prelude.{◌≡◌};
ghost use Rattle.ff_run.specs.Policies.{policies};

use crate::NoMemory;
use crate::named::Named;
use ff_contract::Steps;
use ff_policy::{MOST_POLICY_BYTES, Policy, PolicyFault};
use ff_status::Status;
use std::alloc::Global;
use std::sync::ledger::Ledger;

/// How many bytes of a policy's file count: one more than a policy may have.
const MOST_FETCHED: usize = MOST_POLICY_BYTES + 1;

/// The policy of a name: the built-in one where it is `-`, and else that of the file.
#[derive(Clone, Copy)]
pub(crate) struct PolicyFile;

impl Named for PolicyFile {
    ghost use Rattle.std.specs.Prelude.{◌≡◌};
    ghost use Rattle.ff_run.specs.Policies.{policies};

    type Found = Policy;

    ghost kind = { λ _. policies };

    ghost copied = { λ _ before now. now ≡ before };

    fn most(&self) -> usize {
        MOST_FETCHED
    }

    fn at_dash(&self, alloc: Global) -> Result<Policy, NoMemory> {
        Policy::builtin(alloc)
    }

    /// The policy of the bytes. Else the run ends with `Policy` and their fault, or for want of
    /// memory.
    fn read<C: Ledger>(
        &self,
        alloc: Global,
        bytes: &[u8],
        _copies: &mut Steps<C>,
    ) -> Result<Policy, Status> {
        match Policy::read(alloc, bytes) {
            Ok(policy) => Ok(policy),
            Err(fault) => match &fault {
                PolicyFault::NoMemory => Err(Status::NoMemory),
                _ => Err(Status::Policy(fault)),
            },
        }
    }
}
