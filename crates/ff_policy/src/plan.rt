use ff_lattice::Pair;
use ff_name::Text;
use std::marker::Model;

/// A key and the name of its level.
#[derive(Debug, Drop)]
pub(crate) struct Named {
    pub(crate) key: Text,
    pub(crate) level: Text,
}

impl Model for Named {
    ghost use Rattle.ff_policy.specs.Members as spec;

    ghost Value = { spec.Named };

    ghost view = { λ s. record { key = s.key; level = s.level } };

    ghost inverse = { λ named. record { key = named.key; level = named.level } };
}

/// A kind's word and the names of its two levels.
#[derive(Debug, Drop)]
pub(crate) struct NamedKind {
    pub(crate) key: Text,
    pub(crate) presence: Text,
    pub(crate) content: Text,
}

impl Model for NamedKind {
    ghost use Rattle.ff_policy.specs.Members as spec;

    ghost Value = { spec.NamedKind };

    ghost view = { λ s. record { key = s.key; presence = s.presence; content = s.content } };

    ghost inverse = { λ named. record {
      key = named.key;
      presence = named.presence;
      content =
          named.content;
    } };
}

/// What the members of a policy say: the names of its levels at each place, and its fuel.
#[derive(Debug, Drop)]
pub(crate) struct Plan {
    pub(crate) levels: Vec<Text>,
    pub(crate) below: Vec<Pair>,
    pub(crate) ui: Text,
    pub(crate) other: Text,
    pub(crate) domains: Vec<Named>,
    pub(crate) kinds: Vec<NamedKind>,
    pub(crate) fuel: u64,
}

impl Model for Plan {
    ghost use Rattle.ff_policy.specs.Members as spec;
    ghost use Rattle.ff_policy.specs.Naming.{AreRising};

    ghost Value = { spec.Plan };

    ghost view = { λ s. record {
      levels = s.levels.items;
      below = s.below.items;
      ui = s.ui;
      other =
          s.other;
      domains = s.domains.items;
      kinds = s.kinds.items;
      fuel = s.fuel;
    } };

    ghost invariant = { λ s. AreRising s.domains.items };
}
