//! Writing a text that is made whole before.
ghost use Rattle.std.specs.Prelude.{◌≡◌, IfErr, IfOk};
ghost use Rattle.ff_writing.specs.Checked.{IsPut};

use crate::NoMemory;
use ff_io::{Port, put_all};
use ff_status::Status;

/// Writes the text that was made, or answers that there was no memory for it. The port is never
/// read.
pub fn write<P: Port>(made: Result<Vec<u8>, NoMemory>, port: &mut P) -> Status
    ensures put { IfOk made (λ text. IsPut text.items (P.told port.old) (P.told port.new) result) }
    ensures no_memory { IfErr made (λ refused. result ≡ Status.NoMemory) }
    ensures untouched { IfErr made (λ refused. P.told port.new ≡ P.told port.old) }
{
    let Ok(text) = made else {
        return Status::NoMemory;
    };
    match put_all(port, text.as_slice()) {
        Ok(()) => Status::Done,
        Err(_) => Status::WriteFault,
    }
}
