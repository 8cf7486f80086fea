//! The digits of names, by which a search for a variable turns left or right.
ghost use Rattle.std.specs.Prelude.{◌≡◌, ◌==◌, ◌%◌, ◌/◌};
ghost use Rattle.ff_acts.specs.Digits.{digits, spread};

use ff_name::Name;
use std::marker::Model;

/// An odd number by which each byte of a name is spread over 64 bits.
pub(crate) const SPREAD: u64 = 0x9E37_79B9_7F4A_7C15;

/// The digits that are still to come, seen as the number that has them, the lowest first: some that
/// lie near, and then eight for each later byte.
#[derive(Drop)]
pub(crate) struct Digits<'a> {
    near: u32,
    /// How many lie near.
    left: u32,
    later: &'a [u8],
}

impl<'a> Model for Digits<'a> {
    ghost use Rattle.std.specs.Prelude.{ℕ, ◌+◌, ◌*◌, ◌^◌, ◌<◌};
    ghost use Rattle.ff_acts.specs.Digits.{number};

    ghost Value = { ℕ };

    ghost view = { λ d. d.near + 2 ^ d.left * number d.later.now };

    ghost invariant = { λ d. d.near < 2 ^ d.left };
}

impl<'a> Digits<'a> {
    /// Those of a name, whose first 32 are known.
    pub(crate) fn of(name: &'a Name, first_digits: u32) -> Digits<'a>
        requires { first_digits ≡ spread name.now }
        ensures { result ≡ digits name.now }
    {
        Digits {
            near: first_digits,
            left: 32,
            later: name.as_bytes(),
        }
    }

    /// Takes the next digit, and tells whether it is 1. Past the last all are 0.
    #[inline(always)]
    pub(crate) fn next(&mut self) -> bool
        ensures digit { result ≡ (self.old % 2 == 1) }
        ensures rest { self.new ≡ self.old / 2 }
    {
        if self.left > 0 {
            let digit = self.near % 2 == 1;
            self.near /= 2;
            self.left -= 1;
            return digit;
        }
        let Some((first, later)) = self.later.split_first() else {
            return false;
        };
        let byte = u32::from(*first);
        self.near = byte / 2;
        self.left = 7;
        self.later = later;
        byte % 2 == 1
    }
}

/// The first 32 digits of a name: the upper half of what its bytes are spread to.
pub(crate) fn spread_of(name: &Name) -> u32
    ensures { result ≡ spread name.now }
{
    let mut sum: u64 = 0;
    for b in name.as_bytes() {
        sum = sum.wrapping_add(u64::from(*b)).wrapping_mul(SPREAD);
    }
    (sum >> 32) as u32
}
