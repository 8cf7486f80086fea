use ff_name::Worded;

/// The kind of a node. Its word is what scripts call it.
#[derive(Clone, Copy, Debug, PartialEq, Eq)]
pub enum Kind {
    /// The root of a page.
    Page,
    /// A text.
    Text,
    /// A link.
    Link,
    /// A box, into which the user types.
    TextBox,
    /// A button, with handlers.
    Button,
    /// An inline script.
    Script,
    /// A script that is to be fetched.
    Src,
    /// A division.
    Div,
}

/// Every kind, in the order of `Kind`.
const ALL: [Kind; 8] = [
    Kind::Page,
    Kind::Text,
    Kind::Link,
    Kind::TextBox,
    Kind::Button,
    Kind::Script,
    Kind::Src,
    Kind::Div,
];

/// Each kind has a word.
impl Worded for Kind {
    ghost use Rattle.ff_machine.specs.Kinds.{kind_word, own_word};
    ghost use Rattle.ff_machine.specs.declared.kinds.TheConstants.{ALL};

    ghost word_of = { kind_word };

    ghost each = { ALL };

    ghost own = { own_word };

    fn all() -> &'static [Kind] {
        &ALL
    }

    fn word(self) -> &'static str {
        match self {
            Kind::Page => "page",
            Kind::Text => "text",
            Kind::Link => "link",
            Kind::TextBox => "box",
            Kind::Button => "button",
            Kind::Script => "script",
            Kind::Src => "src",
            Kind::Div => "div",
        }
    }
}
