ghost use Rattle.std.specs.Prelude.{◌≡◌, ◌↔◌, IfOk, MatchOption, IsTrue};
ghost use Rattle.std.specs.List.{list_all};
ghost use Rattle.ff_name.specs.Spelling.{IsName};
ghost use Rattle.ff_name.specs.Spelling as spelling;

use crate::texts::{NoMemory, Text};
use std::alloc::Global;
use std::marker::Model;

/// The most bytes that a name may have.
pub const MOST_NAME_BYTES: usize = 64;

/// A name of a variable, a node or a window: a letter of ASCII or `_`, then letters, digits, `_`
/// or `-`, at most 64 bytes in all. It is seen as the list of its bytes.
#[derive(Debug, PartialEq, Eq, PartialOrd, Ord, Hash, Drop)]
pub struct Name {
    text: Text,
}

impl Model for Name {
    ghost use Rattle.std.specs.Prelude.{ℕ, List};
    ghost use Rattle.ff_name.specs.Spelling.{IsName};

    ghost Value = { List ℕ };

    ghost view = { λ n. n.text };

    ghost invariant = { λ n. IsName n.text };

    ghost inverse = { λ bytes. record { text = bytes } };
}

impl Name {
    /// The name that these bytes spell, or `None` where they spell none.
    #[tactic(auto, using(crate::proofs::Ascii::utf8))]
    pub fn of(alloc: Global, bytes: &[u8]) -> Result<Option<Name>, NoMemory>
        ensures spelled { IfOk result (λ answer. MatchOption answer (¬ IsName bytes.now)
            (λ _. IsName bytes.now)) }
        ensures value { IfOk result (λ answer. MatchOption answer (¬ IsName bytes.now)
            (λ name. name ≡ bytes.now)) }
    {
        if !is_name(bytes) {
            return Ok(None);
        }
        let text = Text::of_utf8(alloc, bytes)?;
        Ok(Some(Name { text }))
    }

    /// The name as a text.
    pub fn text(&self) -> &Text
        ensures value { result.now ≡ self.now }
        ensures name { IsName result.now }
    {
        &self.text
    }

    /// The bytes of the name.
    pub fn as_bytes(&self) -> &[u8]
        ensures value { result.now ≡ self.now }
        ensures name { IsName result.now }
    {
        self.text.as_bytes()
    }

    /// An equal name. It shares the bytes and copies none.
    pub fn copy(&self) -> Result<Name, NoMemory>
        ensures { IfOk result (λ name. name ≡ self.now) }
    {
        Ok(Name {
            text: self.text.copy()?,
        })
    }
}

/// Whether these bytes spell a name.
pub fn is_name(bytes: &[u8]) -> bool
    ensures { IsTrue result ↔ IsName bytes.now }
{
    bytes.len() <= MOST_NAME_BYTES && is_named(bytes)
}

fn is_named(bytes: &[u8]) -> bool
    ensures { result ≡ spelling.is_named bytes.now }
{
    match bytes.split_first() {
        Some((first, rest)) => begins_name(*first) && all_stand_in_name(rest),
        None => false,
    }
}

fn all_stand_in_name(bytes: &[u8]) -> bool
    ensures { result ≡ list_all spelling.stands_in_name bytes.now }
{
    bytes.iter().all(|b| stands_in_name(*b))
}

/// Whether a name may begin with this byte: a letter or `_`.
pub fn begins_name(b: u8) -> bool
    ensures { result ≡ spelling.begins_name b }
{
    b.is_ascii_alphabetic() || b == b'_'
}

/// Whether this byte may stand in a name: a letter, a digit, `_` or `-`.
pub fn stands_in_name(b: u8) -> bool
    ensures { result ≡ spelling.stands_in_name b }
{
    b.is_ascii_alphanumeric() || b == b'_' || b == b'-'
}
