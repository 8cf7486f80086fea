use ff_name::Worded;

/// What an input does: the word of its line after the tag, and a key for its level in a policy.
#[derive(Clone, Copy, Debug, PartialEq, Eq)]
pub enum Kind {
    /// `open`.
    Open,
    /// `go`.
    Go,
    /// `link`.
    Link,
    /// `close`.
    Close,
    /// `type`.
    Type,
    /// `click`.
    Click,
    /// `reply`.
    Reply,
}

/// Every kind, in the order of `Kind`.
const ALL: [Kind; 7] = [
    Kind::Open,
    Kind::Go,
    Kind::Link,
    Kind::Close,
    Kind::Type,
    Kind::Click,
    Kind::Reply,
];

/// Each kind has a word.
impl Worded for Kind {
    ghost use Rattle.ff_value.specs.Kinds.{word_of, own_word};
    ghost use Rattle.ff_value.specs.declared.kind.TheConstants.{ALL};

    ghost word_of = { word_of };

    ghost each = { ALL };

    ghost own = { own_word };

    fn all() -> &'static [Kind] {
        &ALL
    }

    fn word(self) -> &'static str {
        match self {
            Kind::Open => "open",
            Kind::Go => "go",
            Kind::Link => "link",
            Kind::Close => "close",
            Kind::Type => "type",
            Kind::Click => "click",
            Kind::Reply => "reply",
        }
    }
}
