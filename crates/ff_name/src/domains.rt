ghost use Rattle.std.specs.Prelude.{◌≡◌, ◌↔◌, ◌==◌, IfOk, MatchOption, IsTrue};
ghost use Rattle.std.specs.List.{list_all, slice_split};
ghost use Rattle.ff_name.specs.Spelling.{IsDomain};
ghost use Rattle.ff_name.specs.Spelling as spelling;

use crate::texts::{NoMemory, Text};
use std::alloc::Global;
use std::marker::Model;

/// The most bytes that a domain may have.
pub const MOST_DOMAIN_BYTES: usize = 253;

/// The most bytes that a label may have.
pub const MOST_LABEL_BYTES: usize = 63;

/// A domain: labels joined by dots, at most 253 bytes in all. A label has 1 to 63 lower-case
/// letters, digits or dashes, and neither begins nor ends with a dash. It is seen as the list of
/// its bytes.
#[derive(Debug, PartialEq, Eq, PartialOrd, Ord, Hash, Drop)]
pub struct Domain {
    text: Text,
}

impl Model for Domain {
    ghost use Rattle.std.specs.Prelude.{ℕ, List};
    ghost use Rattle.ff_name.specs.Spelling.{IsDomain};

    ghost Value = { List ℕ };

    ghost view = { λ d. d.text };

    ghost invariant = { λ d. IsDomain d.text };

    ghost inverse = { λ bytes. record { text = bytes } };
}

impl Domain {
    /// The domain that these bytes spell, or `None` where they spell none.
    pub fn of(alloc: Global, bytes: &[u8]) -> Result<Option<Domain>, NoMemory>
        ensures spelled { IfOk result (λ answer. MatchOption answer (¬ IsDomain bytes.now)
            (λ _. IsDomain bytes.now)) }
        ensures value { IfOk result (λ answer. MatchOption answer (¬ IsDomain bytes.now)
            (λ domain. domain ≡ bytes.now)) }
    {
        if !is_domain(bytes) {
            return Ok(None);
        }
        let domain = Domain::of_spelled(alloc, bytes)?;
        Ok(Some(domain))
    }

    /// The domain that these bytes are known to spell.
    #[tactic(auto, using(crate::proofs::Ascii::utf8))]
    pub(crate) fn of_spelled(alloc: Global, bytes: &[u8]) -> Result<Domain, NoMemory>
        requires { IsDomain bytes.now }
        ensures { IfOk result (λ domain. domain ≡ bytes.now) }
    {
        let text = Text::of_utf8(alloc, bytes)?;
        Ok(Domain { text })
    }

    /// The domain as a text.
    pub fn text(&self) -> &Text
        ensures value { result.now ≡ self.now }
        ensures domain { IsDomain result.now }
    {
        &self.text
    }

    /// The bytes of the domain.
    pub fn as_bytes(&self) -> &[u8]
        ensures value { result.now ≡ self.now }
        ensures domain { IsDomain result.now }
    {
        self.text.as_bytes()
    }

    /// An equal domain. It shares the bytes and copies none.
    pub fn copy(&self) -> Result<Domain, NoMemory>
        ensures { IfOk result (λ domain. domain ≡ self.now) }
    {
        Ok(Domain {
            text: self.text.copy()?,
        })
    }
}

/// Whether these bytes spell a domain.
pub fn is_domain(bytes: &[u8]) -> bool
    ensures { IsTrue result ↔ IsDomain bytes.now }
{
    bytes.len() <= MOST_DOMAIN_BYTES && has_labels(bytes)
}

fn has_labels(bytes: &[u8]) -> bool
    ensures { result ≡ list_all spelling.is_label (slice_split (λ b. b == 46) bytes.now) }
{
    bytes.split(|b| *b == b'.').all(|label| is_label(label))
}

fn is_label(label: &[u8]) -> bool
    ensures { result ≡ spelling.is_label label.now }
{
    if label.is_empty() || label.len() > MOST_LABEL_BYTES {
        return false;
    }
    label[0] != b'-' && label[label.len() - 1] != b'-' && all_stand_in_label(label)
}

fn all_stand_in_label(bytes: &[u8]) -> bool
    ensures { result ≡ list_all spelling.stands_in_label bytes.now }
{
    bytes.iter().all(|b| stands_in_label(*b))
}

fn stands_in_label(b: u8) -> bool
    ensures { result ≡ spelling.stands_in_label b }
{
    b.is_ascii_lowercase() || b.is_ascii_digit() || b == b'-'
}
