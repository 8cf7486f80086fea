ghost use Rattle.std.specs.Prelude.{◌≡◌, ◌≤◌, ◌<◌, ◌↔◌, ◌∷◌, [], IsTrue, length};
ghost use Rattle.ff_text.specs.Bytes.{is_plain_byte};
ghost use Rattle.ff_text.specs.Notation as notation;
ghost use Rattle.ff_text.specs.Printed.{spelled_byte};

use std::marker::Model;

/// The most bytes that stand for one byte of a string's value.
pub const MOST_ESCAPED_BYTES: usize = 4;

/// What stands for a byte of a string's value: the byte itself, or an escape. It takes no memory,
/// and is seen as the list of its bytes.
#[derive(Drop)]
pub struct Escaped {
    len: u8,
    bytes: [u8; MOST_ESCAPED_BYTES],
}

impl Model for Escaped {
    ghost use Rattle.std.specs.Prelude.{ℕ, ◌≤◌, List, take};
    ghost use Rattle.ff_text.specs.declared.escaped.TheConstants.{MOST_ESCAPED_BYTES};

    ghost Value = { List ℕ };

    ghost view = { λ escaped. take escaped.len escaped.bytes };

    ghost invariant = { λ escaped. escaped.len ≤ MOST_ESCAPED_BYTES };
}

impl Escaped {
    /// What stands for this byte.
    pub fn of(b: u8) -> Escaped
        ensures { result ≡ spelled_byte b }
    {
        if is_plain(b) {
            Escaped::plain(b)
        } else if b == b'"' || b == b'\\' {
            Escaped::short(b)
        } else if b == b'\n' {
            Escaped::short(b'n')
        } else if b == b'\t' {
            Escaped::short(b't')
        } else {
            Escaped {
                len: 4,
                bytes: [b'\\', b'x', hex_digit(b / 16), hex_digit(b % 16)],
            }
        }
    }

    fn plain(b: u8) -> Escaped
        ensures { result ≡ b ∷ [] }
    {
        Escaped {
            len: 1,
            bytes: [b, 0, 0, 0],
        }
    }

    fn short(b: u8) -> Escaped
        ensures { result ≡ 92 ∷ b ∷ [] }
    {
        Escaped {
            len: 2,
            bytes: [b'\\', b, 0, 0],
        }
    }

    /// Its bytes.
    pub fn as_slice(&self) -> &[u8]
        ensures { result.now ≡ self.now }
    {
        &self.bytes[..self.len as usize]
    }
}

/// Whether a byte of a string's value stands for itself: each but the mark, the backslash and the
/// control bytes.
pub fn is_plain(b: u8) -> bool
    ensures itself { IsTrue result ↔ (spelled_byte b ≡ b ∷ []) }
    ensures test { result ≡ is_plain_byte b }
{
    b != b'"' && b != b'\\' && !b.is_ascii_control()
}

fn hex_digit(digit: u8) -> u8
    requires { digit < 16 }
    ensures { result ≡ notation.hex_digit digit }
{
    if digit < 10 {
        b'0' + digit
    } else {
        b'a' - 10 + digit
    }
}
