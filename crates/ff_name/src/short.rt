ghost use Rattle.std.specs.Prelude.{◌≡◌, ◌≤◌, length};

use std::marker::Model;

/// The most bytes that a text keeps in the value itself.
pub(crate) const MOST_SHORT_BYTES: usize = 22;

/// So many bytes at most, kept in the value. It is seen as the list of its bytes.
#[derive(Debug, Drop)]
pub(crate) struct Short {
    len: u8,
    bytes: [u8; MOST_SHORT_BYTES],
}

impl Model for Short {
    ghost use Rattle.std.specs.Prelude.{ℕ, ◌≤◌, List, take};
    ghost use Rattle.ff_name.specs.declared.short.TheConstants.{MOST_SHORT_BYTES};

    ghost Value = { List ℕ };

    ghost view = { λ short. take short.len short.bytes };

    ghost invariant = { λ short. short.len ≤ MOST_SHORT_BYTES };
}

impl Short {
    /// These bytes.
    pub(crate) fn of(bytes: &[u8]) -> Short
        requires { length bytes.now ≤ MOST_SHORT_BYTES }
        ensures { result ≡ bytes.now }
    {
        let mut all = [0; MOST_SHORT_BYTES];
        all[..bytes.len()].copy_from_slice(bytes);
        Short {
            len: bytes.len() as u8,
            bytes: all,
        }
    }

    pub(crate) fn as_bytes(&self) -> &[u8]
        ensures { result.now ≡ self.now }
    {
        &self.bytes[..self.len as usize]
    }

    /// The same bytes.
    pub(crate) fn copy(&self) -> Short
        ensures { result ≡ self.now }
    {
        Short {
            len: self.len,
            bytes: self.bytes,
        }
    }
}
