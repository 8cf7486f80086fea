ghost use Rattle.std.specs.Prelude.{◌≡◌, ◌↔◌, IfOk, MatchOption, IsTrue};
ghost use Rattle.std.specs.Str.{IsUtf8};

use crate::short::{MOST_SHORT_BYTES, Short};
use std::alloc::{AllocError, Global};
use std::cmp::Ordering;
use std::hash::{Hash, Hasher};
use std::marker::Model;
use std::rc::RcStr;

/// The answer of a call that found no memory.
pub type NoMemory = AllocError;

/// Where the bytes of a text are: in the value itself, or in memory that copies share.
#[derive(Debug, Drop)]
enum Holding {
    Short(Short),
    Long(RcStr),
}

/// A text that is never changed, seen as the list of its bytes, which are UTF-8. A long one is
/// shared by its copies, and a short one takes no memory.
#[derive(Debug)]
pub struct Text {
    held: Holding,
}

// Written out, so that the proof of a caller sees one call and not two cases.
impl Drop for Text {
    fn drop(self) {
        let Text { held: _held } = self;
    }
}

impl Model for Text {
    ghost use Rattle.std.specs.Prelude.{ℕ, List};
    ghost use Rattle.std.specs.Str.{IsUtf8};
    ghost use Rattle.ff_name.specs.Holding.{held_bytes};

    ghost Value = { List ℕ };

    ghost view = { λ t. held_bytes t.held };

    ghost invariant = { λ t. IsUtf8 (held_bytes t.held) };
}

impl Text {
    /// The text of these bytes, or `None` where they aren't UTF-8.
    pub fn of(alloc: Global, bytes: &[u8]) -> Result<Option<Text>, NoMemory>
        ensures utf8 { IfOk result (λ answer. MatchOption answer (¬ IsUtf8 bytes.now)
            (λ _. IsUtf8 bytes.now)) }
        ensures value { IfOk result (λ answer. MatchOption answer (¬ IsUtf8 bytes.now)
            (λ text. text ≡ bytes.now)) }
    {
        match str::from_utf8(bytes) {
            Ok(_) => Ok(Some(Text::of_utf8(alloc, bytes)?)),
            Err(_) => Ok(None),
        }
    }

    /// The text of bytes that are known to be UTF-8.
    pub fn of_utf8(alloc: Global, bytes: &[u8]) -> Result<Text, NoMemory>
        requires { IsUtf8 bytes.now }
        ensures { IfOk result (λ text. text ≡ bytes.now) }
    {
        let held = if bytes.len() <= MOST_SHORT_BYTES {
            Holding::Short(Short::of(bytes))
        } else {
            Holding::Long(RcStr::from_str(alloc, str_of(bytes))?)
        };
        Ok(Text { held })
    }

    /// The text of a `str`.
    pub fn of_str(alloc: Global, text: &str) -> Result<Text, NoMemory>
        ensures { IfOk result (λ copy. copy ≡ text.now) }
    {
        Text::of_utf8(alloc, text.as_bytes())
    }

    /// The bytes of the text.
    pub fn as_bytes(&self) -> &[u8]
        ensures value { result.now ≡ self.now }
        ensures utf8 { IsUtf8 result.now }
    {
        match &self.held {
            Holding::Short(short) => short.as_bytes(),
            Holding::Long(text) => text.as_str().as_bytes(),
        }
    }

    /// The text as a `str`.
    pub fn as_str(&self) -> &str
        ensures value { result.now ≡ self.now }
        ensures utf8 { IsUtf8 result.now }
    {
        str_of(self.as_bytes())
    }

    /// An equal text, which takes no memory.
    pub fn copy(&self) -> Result<Text, NoMemory>
        ensures { IfOk result (λ text. text ≡ self.now) }
    {
        let held = match &self.held {
            Holding::Short(short) => Holding::Short(short.copy()),
            Holding::Long(text) => Holding::Long(text.clone()?),
        };
        Ok(Text { held })
    }
}

/// The bytes, which are UTF-8, as a `str`.
fn str_of(bytes: &[u8]) -> &str
    requires { IsUtf8 bytes.now }
    ensures { result.now ≡ bytes.now }
{
    match str::from_utf8(bytes) {
        Ok(text) => text,
        Err(_) => unreachable!(),
    }
}

impl PartialEq for Text {
    ghost use Rattle.std.specs.Prelude.{nat_eq};
    ghost use Rattle.std.specs.Cmp;
    ghost use Rattle.std.specs.Cmp.Lexicographic.{pointwise, nat_list_eq_equiv};

    ghost eq = { pointwise nat_eq };

    ghost laws = { Cmp.partial_equiv_from_equiv nat_list_eq_equiv };

    fn eq(&self, other: &Text) -> bool
        ensures { IsTrue result ↔ (self.now ≡ other.now) }
    {
        self.as_bytes() == other.as_bytes()
    }
}

impl Eq for Text {
    ghost use Rattle.std.specs.Cmp.Lexicographic.{nat_list_eq_equiv};

    ghost laws = { nat_list_eq_equiv };
}

impl PartialOrd for Text {
    ghost use Rattle.std.specs.Prelude.{Some};
    ghost use Rattle.std.specs.Ordering.{nat_cmp};
    ghost use Rattle.std.specs.Cmp.Lexicographic.{slice_cmp, texts_po};

    ghost partial_cmp = { λ x y. Some (slice_cmp nat_cmp x y) };

    ghost laws = { texts_po };

    fn partial_cmp(&self, other: &Text) -> Option<Ordering> {
        Some(self.cmp(other))
    }
}

impl Ord for Text {
    ghost use Rattle.std.specs.Prelude.{refl};
    ghost use Rattle.std.specs.Ordering.{nat_cmp};
    ghost use Rattle.std.specs.Cmp.Lexicographic.{slice_cmp, nat_list_cmp_total, texts_ties};

    ghost cmp = { slice_cmp nat_cmp };

    ghost total = { nat_list_cmp_total };

    ghost matches_partial_cmp = { λ x y. refl };

    ghost matches_eq = { texts_ties };

    fn cmp(&self, other: &Text) -> Ordering {
        self.as_bytes().cmp(other.as_bytes())
    }
}

impl Hash for Text {
    ghost use Rattle.std.specs.Hash as fed;
    ghost use Rattle.std.specs.Cmp.Rules.{hashing};
    ghost use Rattle.std.proofs.Common.{rules};

    ghost hash_input = { λ s. fed.str s };

    ghost respects_eq = { Prim.search (hashing, rules) };

    fn hash<H: Hasher>(&self, state: &mut H) {
        self.as_str().hash(state);
    }
}
