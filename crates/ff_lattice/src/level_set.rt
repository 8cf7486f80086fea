ghost use Rattle.std.specs.Prelude.{◌≡◌, ℕ, ◌<◌, ◌==◌, ◌||◌, ◌&&◌, ◌↔◌, [], IsTrue, IsNone, IfSome, length};
ghost use Rattle.ff_lattice.specs.LevelSet.{has, levels_where, IsLevelSet, IsLeast};
ghost use Rattle.ff_lattice.specs.declared.names.TheConstants.{MOST_LEVELS};

use ff_name::Level;
use std::marker::Model;

/// A set of levels below `MOST_LEVELS`, seen as the list of its levels in rising order.
#[derive(Clone, Copy, Debug)]
pub struct LevelSet {
    bits: u16,
}

impl Model for LevelSet {
    ghost use Rattle.std.specs.Prelude.{List, ℕ, ◌<◌, ◌^◌};
    ghost use Rattle.ff_lattice.specs.LevelBits.{levels_of, bits_of};
    ghost use Rattle.ff_lattice.specs.LevelBits.{bits_of-levels_of};
    ghost use Rattle.std.proofs.Common.{ap};

    ghost Value = { List ℕ };

    ghost view = { λ s. levels_of s.bits };

    ghost invariant = { λ s. s.bits < 2 ^ 16 };

    ghost inverse = { λ levels. record { bits = bits_of levels } };

    ghost inverse_ok = { λ s h. ap (λ n. record { bits = n }) (bits_of-levels_of s.bits h) };
}

impl LevelSet {
    /// The set that holds no level.
    pub fn empty() -> LevelSet
        ensures { result ≡ [] }
    {
        LevelSet { bits: 0 }
    }

    /// The set that also holds the level `l`.
    pub fn with(self, l: Level) -> LevelSet
        requires { l.0 < MOST_LEVELS }
        ensures { result ≡ levels_where (λ m. has self m || m == l.0) }
    {
        LevelSet {
            bits: self.bits | 1 << l.0,
        }
    }

    /// Whether the set holds the level `l`.
    pub fn has(self, l: Level) -> bool
        requires { l.0 < MOST_LEVELS }
        ensures { result ≡ has self l.0 }
    {
        self.bits >> l.0 & 1 == 1
    }

    /// The least level of the set, or `None` where it holds none.
    pub fn least(self) -> Option<Level>
        ensures none { IsNone result ↔ (self ≡ []) }
        ensures least { IfSome result (λ l. IsLeast self l.0) }
    {
        if self.bits == 0 {
            return None;
        }
        Some(Level(self.bits.trailing_zeros() as u8))
    }

    /// How many levels the set holds.
    pub fn len(self) -> u32
        ensures valid { IsLevelSet self }
        ensures count { result ≡ length self }
    {
        self.bits.count_ones()
    }

    /// The levels that are in this set or in the other.
    pub(crate) fn either(self, other: LevelSet) -> LevelSet
        ensures { result ≡ levels_where (λ m. has self m || has other m) }
    {
        LevelSet {
            bits: self.bits | other.bits,
        }
    }

    /// The levels that are in both sets.
    pub(crate) fn both(self, other: LevelSet) -> LevelSet
        ensures { result ≡ levels_where (λ m. has self m && has other m) }
    {
        LevelSet {
            bits: self.bits & other.bits,
        }
    }
}

impl PartialEq for LevelSet {
    ghost use Rattle.std.specs.Prelude.{nat_eq};
    ghost use Rattle.std.specs.Cmp;
    ghost use Rattle.std.specs.Cmp.Lexicographic.{pointwise, nat_list_eq_equiv};

    ghost eq = { pointwise nat_eq };

    ghost laws = { Cmp.partial_equiv_from_equiv nat_list_eq_equiv };

    fn eq(&self, other: &LevelSet) -> bool
        ensures { IsTrue result ↔ (self.now ≡ other.now) }
    {
        self.bits == other.bits
    }
}

impl Eq for LevelSet {
    ghost use Rattle.std.specs.Cmp.Lexicographic.{nat_list_eq_equiv};

    ghost laws = { nat_list_eq_equiv };
}
