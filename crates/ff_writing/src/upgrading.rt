ghost use Rattle.std.specs.Prelude.{◌≡◌, IfOk};
ghost use Rattle.ff_writing.specs.Checked.{IsPut};
ghost use Rattle.ff_writing.specs.Upgraded.{upgrade_text};

use crate::NoMemory;
use crate::whole::write;
use ff_io::Port;
use ff_policy::Policy;
use ff_status::Status;
use std::alloc::Global;

/// Writes the policy as version 2, and a newline. The port is never read.
#[tactic(auto, using(crate::proofs::Writing::put_made))]
pub fn upgrade<P: Port>(alloc: Global, policy: &Policy, port: &mut P) -> Status
    ensures { IsPut (upgrade_text policy.now) (P.told port.old) (P.told port.new) result }
{
    write(upgraded(alloc, policy), port)
}

/// The policy as version 2, and a newline.
fn upgraded(alloc: Global, policy: &Policy) -> Result<Vec<u8>, NoMemory>
    ensures { IfOk result (λ text. text.items ≡ upgrade_text policy.now) }
{
    let mut text = Vec::new(alloc);
    policy.print(alloc, &mut text)?;
    text.push(b'\n')?;
    Ok(text)
}
