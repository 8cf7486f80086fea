//! Marks: which names and kinds may stand at and below a node, as 64 bits each. What must hold of
//! them is local: a node's own bits are set, and a cell's marks lie within its parent's.
ghost use Rattle.std.specs.Prelude.{◌≡◌, ◌↔◌, ◌<◌, IsTrue};
ghost use Rattle.std.specs.Int.{bit_at};
ghost use Rattle.ff_nodes.specs.Marked.{name_bit, kind_bit, IsOwn, AreWithin};

use crate::node::Node;
use ff_machine::Kind;

/// Bits of names and of kinds.
#[derive(Clone, Copy)]
pub(crate) struct Marks {
    pub(crate) names: u64,
    pub(crate) kinds: u64,
}

impl Marks {
    /// The marks of a node that has no children.
    pub(crate) fn of(node: &Node) -> Marks
        ensures { IsOwn node.now result }
    {
        let names = match node.name() {
            Some(name) => bit(bit_of_name(name)),
            None => 0,
        };
        Marks {
            names,
            kinds: bit(bit_of_kind(node.kind())),
        }
    }

    /// These marks and others together.
    pub(crate) fn with(self, other: Marks) -> Marks
        ensures mine { AreWithin self result }
        ensures others { AreWithin other result }
    {
        Marks {
            names: self.names | other.names,
            kinds: self.kinds | other.kinds,
        }
    }

    /// Whether the bit of a name is set. Where it isn't, no node of this name is there.
    pub(crate) fn may_have_name(self, bit: u32) -> bool
        requires { bit < 64 }
        ensures { IsTrue result ↔ (bit_at self.names bit ≡ 1) }
    {
        has(self.names, bit)
    }

    /// Whether the kind's bit is set. Where it isn't, no node of this kind is there.
    pub(crate) fn may_have_kind(self, kind: Kind) -> bool
        ensures { IsTrue result ↔ (bit_at self.kinds (kind_bit kind) ≡ 1) }
    {
        has(self.kinds, bit_of_kind(kind))
    }
}

/// Whether a bit is set.
fn has(mask: u64, k: u32) -> bool
    requires { k < 64 }
    ensures { IsTrue result ↔ (bit_at mask k ≡ 1) }
{
    (mask >> k) % 2 == 1
}

/// One bit.
fn bit(k: u32) -> u64
    requires { k < 64 }
    ensures { bit_at result k ≡ 1 }
{
    1 << k
}

/// The number of a name's bit.
pub(crate) fn bit_of_name(name: &[u8]) -> u32
    ensures value { result ≡ name_bit name.now }
    ensures bound { result < 64 }
{
    let mut at = 0;
    for b in name {
        at = (at * 31 + *b as u32) % 64;
    }
    at
}

/// The number of a kind's bit.
fn bit_of_kind(kind: Kind) -> u32
    ensures value { result ≡ kind_bit kind }
    ensures bound { result < 64 }
{
    match kind {
        Kind::Page => 0,
        Kind::Text => 1,
        Kind::Link => 2,
        Kind::TextBox => 3,
        Kind::Button => 4,
        Kind::Script => 5,
        Kind::Src => 6,
        Kind::Div => 7,
    }
}
