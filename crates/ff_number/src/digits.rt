ghost use Rattle.std.specs.Prelude.{◌≡◌, ◌≤◌, length};
ghost use Rattle.ff_number.specs.Decimal.{nat_text, num_text};

use std::marker::Model;

/// The most digits of a number of 64 bits, and with its sign where it is signed.
pub(crate) const MOST_DIGITS: usize = 20;

/// The digits of a number of 64 bits in decimal, and its sign, in a buffer of its own that takes no
/// memory. It is seen as the list of their bytes.
#[derive(Drop)]
pub struct Digits {
    /// The digits are the last ones.
    buffer: [u8; MOST_DIGITS],
    start: usize,
}

impl Model for Digits {
    ghost use Rattle.std.specs.Prelude.{ℕ, List, ◌≤◌, drop};
    ghost use Rattle.ff_number.specs.declared.digits.TheConstants.{MOST_DIGITS};

    ghost Value = { List ℕ };

    ghost view = { λ d. drop d.start d.buffer };

    ghost invariant = { λ d. d.start ≤ MOST_DIGITS };
}

impl Digits {
    /// The digits of the number.
    pub fn of(n: u64) -> Digits
        ensures { result ≡ nat_text n }
    {
        let mut buffer = [b'0'; MOST_DIGITS];
        let start = itoa::write_digits(n, &mut buffer, MOST_DIGITS);
        Digits { buffer, start }
    }

    /// The digits of the number, after a minus where it is negative.
    pub fn of_num(n: i64) -> Digits
        ensures { result ≡ num_text n }
    {
        let mut buffer = [b'0'; MOST_DIGITS];
        let start = itoa::write_digits(n.unsigned_abs(), &mut buffer, MOST_DIGITS);
        if n >= 0 {
            return Digits { buffer, start };
        }
        buffer[start - 1] = b'-';
        Digits {
            buffer,
            start: start - 1,
        }
    }

    /// Their bytes.
    pub fn as_slice(&self) -> &[u8]
        ensures { result.now ≡ self.now }
    {
        &self.buffer[self.start..]
    }
}
