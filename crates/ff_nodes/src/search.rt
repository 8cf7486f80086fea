//! Searches of trees. They take no memory, and pass over a tree whose marks say that nothing can be
//! found there.
ghost use Rattle.std.specs.Prelude.{◌≡◌, ◌+◌, ◌<◌, ℕ, List, [], IsTrue, Some, None, IfOk, IfErr, length};
ghost use Rattle.ff_machine.specs.Nodes as nodes;
ghost use Rattle.ff_machine.specs.Kinds.{kind_word};
ghost use Rattle.ff_nodes.specs.Marked.{name_bit as bit_of};

use crate::marks::bit_of_name;
use crate::nodes::Nodes;
use ff_machine::Kind;
use ff_name::is_name;
use ff_value::NodeId;

impl Nodes {
    /// The first node of a name in the tree of a node, the node itself first, then its children in
    /// their order, each with what stands below it. What spells no name is found nowhere, at once.
    pub fn by_name(&self, root: NodeId, name: &[u8]) -> Option<NodeId>
        requires { root.0 < length self.now }
        ensures { result ≡ nodes.by_name self.now root name.now }
    {
        if !is_name(name) {
            // For the proof: each name in the cells is one.
            let _ = &self.cells;
            return None;
        }
        self.named(root, name, bit_of_name(name))
    }

    /// The same, by the number of the name's bit too.
    fn named(&self, root: NodeId, name: &[u8], bit: u32) -> Option<NodeId>
        requires lives { root.0 < length self.now }
        requires bit { bit ≡ bit_of name.now }
        requires small { bit < 64 }
        ensures { result ≡ nodes.by_name self.now root name.now }
    {
        if self.lacks_name(root, bit) {
            return None;
        }
        let node = self.at(root);
        if node.is_named(name) {
            return Some(root);
        }
        for child in node.children().as_slice() {
            if let Some(found) = self.named(*child, name, bit) {
                return Some(found);
            }
        }
        None
    }

    /// The node of a kind and a number, counted from 0 in the same order.
    pub fn nth(&self, root: NodeId, kind: Kind, k: u32) -> Option<NodeId>
        requires { root.0 < length self.now }
        ensures { result ≡ nodes.nth self.now root kind k }
    {
        match self.nth_from(root, kind, k) {
            Ok(found) => Some(found),
            Err(_left) => None,
        }
    }

    /// The same, or else how many are left to count.
    fn nth_from(&self, root: NodeId, kind: Kind, k: u32) -> Result<NodeId, u32>
        requires { root.0 < length self.now }
        ensures found { IfOk result (λ m. nodes.nth self.now root kind k ≡ Some m) }
        ensures passed { IfErr result (λ left. left
            + length (nodes.of_word self.now root (kind_word kind)) ≡ k) }
    {
        if self.lacks_kind(root, kind) {
            return Err(k);
        }
        let node = self.at(root);
        let mut left = k;
        if node.is_of_kind(kind) {
            if k == 0 {
                return Ok(root);
            }
            left = k - 1;
        }
        for child in node.children().as_slice() {
            match self.nth_from(*child, kind, left) {
                Ok(found) => return Ok(found),
                Err(rest) => left = rest,
            }
        }
        Err(left)
    }

    /// Whether the marks say that no node of a name with this bit is in the tree.
    pub(crate) fn lacks_name(&self, root: NodeId, bit: u32) -> bool
        requires lives { root.0 < length self.now }
        requires bit { bit < 64 }
        ensures { IsTrue result → (name : List ℕ) → bit ≡ bit_of name
            → nodes.by_name self.now root name ≡ None }
    {
        match self.cells.get(root.0) {
            Some(cell) => !cell.marks.may_have_name(bit),
            None => unreachable!(),
        }
    }

    /// Whether the marks say that no node of this kind is in the tree.
    pub(crate) fn lacks_kind(&self, root: NodeId, kind: Kind) -> bool
        requires { root.0 < length self.now }
        ensures { IsTrue result → nodes.of_word self.now root (kind_word kind) ≡ [] }
    {
        match self.cells.get(root.0) {
            Some(cell) => !cell.marks.may_have_kind(kind),
            None => unreachable!(),
        }
    }
}
