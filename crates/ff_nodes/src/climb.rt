//! What is found above a node.
ghost use Rattle.std.specs.Prelude.{◌≡◌, ◌<◌, ◌≤◌, length};
ghost use Rattle.ff_machine.specs.declared.limits.TheConstants.{MOST_TREE_DEPTH};
ghost use Rattle.ff_machine.specs.Nodes as nodes;

use crate::nodes::Nodes;
use ff_value::{NodeId, PageId};

impl Nodes {
    /// The page whose root is the root of the node's tree, if there is one.
    pub fn page_root_of(&self, n: NodeId) -> Option<PageId>
        requires { n.0 < length self.now }
        ensures { result ≡ nodes.page_root_of self.now n }
    {
        self.at(self.root_of(n)).page()
    }

    /// The root of the node's tree.
    pub(crate) fn root_of(&self, n: NodeId) -> NodeId
        requires { n.0 < length self.now }
        ensures value { result ≡ nodes.root self.now n }
        ensures lives { result.0 < length self.now }
    {
        match self.at(n).parent() {
            Some(parent) => self.root_of(parent),
            None => n,
        }
    }

    /// How many nodes stand above the node.
    pub(crate) fn depth_of(&self, n: NodeId) -> u32
        requires { n.0 < length self.now }
        ensures value { result ≡ nodes.depth self.now n }
        ensures bound { result ≤ MOST_TREE_DEPTH }
    {
        match self.at(n).parent() {
            Some(parent) => self.depth_of(parent) + 1,
            None => 0,
        }
    }
}
