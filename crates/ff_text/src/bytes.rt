ghost use Rattle.std.specs.Prelude.{◌≡◌, ◌<◌, ◌≤◌, false, get_or, length, take, IsTrue, IfSome};
ghost use Rattle.std.specs.List.{list_all};
ghost use Rattle.ff_text.specs.Bytes as bytes;
ghost use Rattle.ff_text.specs.Classes as classes;

use crate::escaped::is_plain;

/// What a byte outside strings is.
#[derive(Clone, Copy)]
pub(crate) enum Class {
    Blank,
    Open,
    Close,
    Quote,
    InWord,
    Stray,
}

#[tactic(auto, unfolding(crate::specs::Classes::class_of))]
pub(crate) fn class_of(b: u8) -> Class
    ensures class { result ≡ classes.class_of b }
    ensures word { classes.class_of b ≡ Class.InWord → IsTrue (bytes.is_word_byte b) }
{
    if b == b' ' {
        Class::Blank
    } else if b == b'(' {
        Class::Open
    } else if b == b')' {
        Class::Close
    } else if b == b'"' {
        Class::Quote
    } else if b.is_ascii_graphic() {
        Class::InWord
    } else {
        Class::Stray
    }
}

/// Whether a byte may stand in a word.
pub(crate) fn is_word_byte(b: u8) -> bool
    ensures { result ≡ bytes.is_word_byte b }
{
    if b > b')' {
        b < 127
    } else {
        b > b' ' && b != b'(' && b != b')' && b != b'"'
    }
}

/// How many bytes at the front may stand in a word.
pub(crate) fn word_front(text: &[u8]) -> usize
    ensures bound { result ≤ length text.now }
    ensures word { IsTrue (list_all bytes.is_word_byte (take result text.now)) }
    ensures longest { result < length text.now
        → bytes.is_word_byte (get_or text.now result 0) ≡ false }
{
    let mut n = 0;
    while n < text.len() && is_word_byte(text[n]) {
        n += 1;
    }
    n
}

/// How many bytes at the front stand for themselves in a string.
pub(crate) fn plain_front(text: &[u8]) -> usize
    ensures bound { result ≤ length text.now }
    ensures plain { IsTrue (list_all bytes.is_plain_byte (take result text.now)) }
    ensures longest { result < length text.now
        → bytes.is_plain_byte (get_or text.now result 0) ≡ false }
{
    let mut n = 0;
    while n < text.len() && is_plain(text[n]) {
        n += 1;
    }
    n
}

/// What a byte in a string is, outside its escapes.
#[derive(Clone, Copy)]
pub(crate) enum InStr {
    Mark,
    Backslash,
    Control,
    Plain,
}

#[tactic(auto, unfolding(crate::specs::Classes::in_str_of))]
pub(crate) fn in_str_of(b: u8) -> InStr
    ensures { result ≡ classes.in_str_of b }
{
    if b == b'"' {
        InStr::Mark
    } else if b == b'\\' {
        InStr::Backslash
    } else if b.is_ascii_control() {
        InStr::Control
    } else {
        InStr::Plain
    }
}

/// What a byte after a backslash is.
#[derive(Clone, Copy)]
pub(crate) enum Slashed {
    Short(u8),
    Hex,
    Wrong,
}

#[tactic(auto, unfolding(crate::specs::Classes::slashed_of))]
pub(crate) fn slashed_of(b: u8) -> Slashed
    ensures { result ≡ classes.slashed_of b }
{
    if b == b'"' || b == b'\\' {
        Slashed::Short(b)
    } else if b == b'n' {
        Slashed::Short(b'\n')
    } else if b == b't' {
        Slashed::Short(b'\t')
    } else if b == b'x' {
        Slashed::Hex
    } else {
        Slashed::Wrong
    }
}

/// The value of the first digit after `\x`, which is one of 0 to 7, or `None` for another byte.
#[tactic(auto, unfolding(crate::specs::Classes::high_digit))]
pub(crate) fn high_digit(b: u8) -> Option<u8>
    ensures { result ≡ classes.high_digit b }
{
    if (b'0'..=b'7').contains(&b) {
        Some(b - b'0')
    } else {
        None
    }
}

/// The value of the second digit after `\x`.
#[tactic(auto, unfolding(crate::specs::Classes::low_digit))]
pub(crate) fn low_digit(b: u8) -> Option<u8>
    ensures digit { result ≡ classes.low_digit b }
    ensures low { IfSome result (λ digit. digit < 16) }
{
    if b.is_ascii_digit() {
        Some(b - b'0')
    } else if (b'a'..=b'f').contains(&b) {
        Some(b - b'a' + 10)
    } else {
        None
    }
}
