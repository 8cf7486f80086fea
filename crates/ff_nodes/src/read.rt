//! What is read off one node.
ghost use Rattle.std.specs.Prelude.{◌≡◌, ◌<◌, ◌≤◌, length};
ghost use Rattle.std.specs.Option.{option_copied};
ghost use Rattle.ff_machine.specs.declared.limits.TheConstants.{MOST_NODES};
ghost use Rattle.ff_machine.specs.Nodes as nodes;
ghost use Rattle.ff_machine.specs.Operators.{item_at};
ghost use Rattle.ff_machine.specs.Shapes as shapes;

use crate::nodes::Nodes;
use ff_machine::Kind;
use ff_value::{Body, Codes, Ids, NodeId, Text, Url};

impl Nodes {
    /// The kind of a node.
    pub fn kind(&self, n: NodeId) -> Kind
        requires { n.0 < length self.now }
        ensures { result ≡ shapes.kind_of (nodes.node_at self.now n).shape }
    {
        self.at(n).kind()
    }

    /// The text or label of a node, lent. `None` exactly for the root of a page, a script, the
    /// address of one and a division.
    pub fn text(&self, n: NodeId) -> Option<&Text>
        requires { n.0 < length self.now }
        ensures { option_copied result ≡ shapes.text_of (nodes.node_at self.now n).shape }
    {
        self.at(n).text()
    }

    /// The address of a link or of a script that is to be fetched, lent.
    pub fn url(&self, n: NodeId) -> Option<&Url>
        requires { n.0 < length self.now }
        ensures { option_copied result ≡ shapes.url_of (nodes.node_at self.now n).shape }
    {
        self.at(n).url()
    }

    /// The expression of an inline script, lent.
    pub fn body(&self, n: NodeId) -> Option<&Body>
        requires { n.0 < length self.now }
        ensures { option_copied result ≡ shapes.body_of (nodes.node_at self.now n).shape }
    {
        self.at(n).body()
    }

    /// The handlers of a node in their order, lent.
    pub fn handlers(&self, n: NodeId) -> &Codes
        requires { n.0 < length self.now }
        ensures { result.now ≡ (nodes.node_at self.now n).handlers }
    {
        self.at(n).handlers()
    }

    /// The children of a node in their order, lent.
    pub fn children(&self, n: NodeId) -> &Ids
        requires { n.0 < length self.now }
        ensures { result.now ≡ nodes.children self.now n }
    {
        self.at(n).children()
    }

    /// The child at a place that counts from 0, or `None` where the place is none.
    pub fn child(&self, n: NodeId, k: i64) -> Option<NodeId>
        requires { n.0 < length self.now }
        ensures { result ≡ item_at (nodes.children self.now n) k }
    {
        if k < 0 {
            return None;
        }
        self.children(n).get(k as usize).copied()
    }

    /// How many children a node has.
    pub fn count(&self, n: NodeId) -> u32
        requires { n.0 < length self.now }
        ensures { result ≡ length (nodes.children self.now n) }
    {
        self.at(n).children().len() as u32
    }
}
