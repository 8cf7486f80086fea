//! The levels of the kinds of input.
ghost use Rattle.std.specs.Prelude.{◌≡◌};
ghost use Rattle.ff_policy.specs.Assignment.{all_kinds, both, levels_of};

use ff_name::Level;
use ff_value::Kind;
use std::marker::Model;

/// The kinds of input.
pub(crate) const KINDS: [Kind; 7] = [
    Kind::Open,
    Kind::Go,
    Kind::Link,
    Kind::Close,
    Kind::Type,
    Kind::Click,
    Kind::Reply,
];

/// The kinds of input that a user makes: all but replies.
pub(crate) const USER_KINDS: [Kind; 6] = [
    Kind::Open,
    Kind::Go,
    Kind::Link,
    Kind::Close,
    Kind::Type,
    Kind::Click,
];

/// The levels of a kind of input.
#[derive(Clone, Copy, Debug)]
pub(crate) struct KindLevels {
    /// The level from which on it is known that there was an input of the kind.
    pub(crate) presence: Level,
    /// The level from which on it is known what the input says.
    pub(crate) content: Level,
}

impl Model for KindLevels {
    ghost use Rattle.ff_policy.specs.Assignment as spec;

    ghost Value = { spec.KindLevels };

    ghost view = { λ s. record { presence = s.presence.0; content = s.content.0 } };

    ghost inverse = { λ levels. record {
      presence = record { 0 = levels.presence };
      content = record
          { 0 = levels.content };
    } };
}

impl KindLevels {
    /// One level for presence and content.
    pub(crate) fn both(level: Level) -> KindLevels
        ensures { result ≡ both level.0 }
    {
        KindLevels {
            presence: level,
            content: level,
        }
    }
}

/// The levels of what a user does and of what a server answers.
#[derive(Debug, Drop)]
pub(crate) struct Kinds {
    pub(crate) opens: KindLevels,
    pub(crate) goes: KindLevels,
    pub(crate) links: KindLevels,
    pub(crate) closes: KindLevels,
    pub(crate) types: KindLevels,
    pub(crate) clicks: KindLevels,
    pub(crate) replies: KindLevels,
}

impl Model for Kinds {
    ghost use Rattle.ff_policy.specs.Assignment as spec;

    ghost Value = { spec.Kinds };

    ghost view = { λ s. record {
      opens = s.opens;
      goes = s.goes;
      links = s.links;
      closes = s.closes;
      types = s.types;
      clicks = s.clicks;
      replies = s.replies;
    } };
}

impl Kinds {
    /// Each kind at one level.
    pub(crate) fn all(level: Level) -> Kinds
        ensures { result ≡ all_kinds level.0 }
    {
        let levels = KindLevels::both(level);
        Kinds {
            opens: levels,
            goes: levels,
            links: levels,
            closes: levels,
            types: levels,
            clicks: levels,
            replies: levels,
        }
    }

    /// The levels of a kind.
    pub(crate) fn of(&self, kind: Kind) -> KindLevels
        ensures { result ≡ levels_of self.now kind }
    {
        match kind {
            Kind::Open => self.opens,
            Kind::Go => self.goes,
            Kind::Link => self.links,
            Kind::Close => self.closes,
            Kind::Type => self.types,
            Kind::Click => self.clicks,
            Kind::Reply => self.replies,
        }
    }
}
