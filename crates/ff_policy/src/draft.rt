ghost use Rattle.std.specs.Prelude.{◌≡◌, ◌≢◌, ◌≤◌, ◌↔◌, OnOk, IfErr, IsTrue};
ghost use Rattle.ff_policy.specs.Assignment.{AreSpelled, IsDraft, is_ordered, first_unordered};
ghost use Rattle.ff_policy.specs.Reading.{IsKeyFault};

use crate::PolicyFault;
use crate::checks::check_keys;
use crate::key::Key;
use crate::kinds::{KINDS, Kinds};
use crate::limits::MOST_FUEL;
use ff_lattice::Lattice;
use ff_name::Level;
use ff_value::Kind;
use std::marker::Model;

/// A policy whose keys and fuel aren't checked yet.
#[derive(Debug, Drop)]
pub(crate) struct Draft {
    pub(crate) lattice: Lattice,
    pub(crate) ui: Level,
    pub(crate) other: Level,
    pub(crate) domains: Vec<Key>,
    pub(crate) kinds: Kinds,
    pub(crate) fuel: u64,
}

impl Model for Draft {
    ghost use Rattle.ff_policy.specs.Assignment.{Assignment};

    ghost Value = { Assignment };

    ghost view = { λ s. record {
      order = s.lattice;
      ui = s.ui.0;
      other = s.other.0;
      domains =
          s.domains.items;
      kinds = s.kinds;
      fuel = s.fuel;
    } };
}

impl Draft {
    /// Tests how each key is spelled.
    pub(crate) fn check_keys(&self) -> Result<(), PolicyFault>
        ensures done { OnOk result (AreSpelled self.now.domains) }
        ensures fault { IfErr result (λ fault. fault ≢ PolicyFault.NoMemory
            → IsKeyFault self.now.domains fault) }
    {
        check_keys(&self.domains)
    }

    /// Whether the fuel is from 1 to `MOST_FUEL`.
    pub(crate) fn has_fuel(&self) -> bool
        ensures { IsTrue result ↔ ((1 ≤ self.now.fuel) × (self.now.fuel ≤ MOST_FUEL)) }
    {
        1 <= self.fuel && self.fuel <= MOST_FUEL
    }

    /// The first kind whose presence isn't at or below its content.
    pub(crate) fn first_unordered(&self) -> Option<Kind>
        requires { IsDraft self.now }
        ensures { result ≡ first_unordered self.now }
    {
        KINDS.iter().copied().find(|kind| !self.is_ordered(*kind))
    }

    /// Whether the kind's presence is at or below its content.
    fn is_ordered(&self, kind: Kind) -> bool
        requires { IsDraft self.now }
        ensures { result ≡ is_ordered self.now kind }
    {
        let levels = self.kinds.of(kind);
        self.lattice.leq(levels.presence, levels.content)
    }
}
