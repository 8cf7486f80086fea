//! Writing a whole text.
ghost use Rattle.std.specs.Prelude.{◌≡◌, length};
ghost use Rattle.ff_io.specs.Counts.{HasCause};
ghost use Rattle.ff_io.specs.Whole.{Puts};

use super::outside::{Failed, Port};

/// Puts all of `bytes` to the port. It takes no memory, and makes no write for empty `bytes`.
///
/// # Errors
///
/// `Failed` where a write failed; a proper front of `bytes` was put before it.
pub fn put_all<P: Port>(port: &mut P, bytes: &[u8]) -> Result<(), Failed>
    ensures pieces { Puts (P.log port.old) (P.log port.new) bytes.now result }
    ensures none { length bytes.now ≡ 0 → port.new ≡ port.old }
    ensures rest { P.rest port.new ≡ P.rest port.old }
    ensures cause { HasCause (P.write_faults port.old) (P.write_faults port.new) result }
    ensures others { P.read_faults port.new ≡ P.read_faults port.old }
{
    let mut left = bytes;
    while !left.is_empty() {
        let n = port.write(left)?;
        left = &left[n..];
    }
    Ok(())
}
