use ff_name::Text;
use ff_shared::OwnedList;
use thiserror::Error;

/// Where an item stands, in bytes from 0: the places of its first byte and of the byte after its
/// last.
#[derive(Clone, Copy, Debug, PartialEq, Eq)]
pub struct Span {
    /// The place of the first byte.
    pub from: u32,
    /// The place of the byte after the last.
    pub to: u32,
}

/// The items of a list or of a text, in their order.
pub type Items = OwnedList<Sexp>;

/// An item of the notation.
#[derive(Debug, PartialEq, Eq, Drop)]
pub enum Sexp {
    /// A word: visible bytes of ASCII other than parentheses and quotation marks.
    Word(Span, Text),
    /// A string, by its value.
    Str(Span, Text),
    /// A list in parentheses.
    List(Span, Items),
}

/// Why bytes are not read as items. Places are in bytes from 0.
#[derive(Clone, Copy, Debug, PartialEq, Eq, Error)]
pub enum TextFault {
    /// One item was wanted, and there is none.
    #[error("text empty")]
    Empty,
    /// The text ends inside the string whose opening mark is at this place, or else inside lists of
    /// which the innermost opens here.
    #[error("text unclosed at {0}")]
    Unclosed(u32),
    /// A `)` at this place closes no list, or, where one item was wanted, the second begins here.
    #[error("text extra at {0}")]
    Extra(u32),
    /// The byte at this place may not stand there.
    #[error("text bad-byte at {0}")]
    BadByte(u32),
    /// The backslash at this place begins no escape.
    #[error("text bad-escape at {0}")]
    BadEscape(u32),
    /// The value of the string whose opening mark is at this place is not UTF-8.
    #[error("text bad-utf8 at {0}")]
    BadUtf8(u32),
    /// The `(` at this place would open one list more than may stand in one another.
    #[error("text too-deep at {0}")]
    TooDeep(u32),
    /// There was no memory for the items.
    #[error("out of memory")]
    NoMemory,
}
