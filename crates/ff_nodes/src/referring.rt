//! What is asked of all nodes, for stores that are made of parts.
ghost use Rattle.std.specs.Prelude.{◌≡◌, ◌<◌, ◌↔◌, All, IsTrue, length};
ghost use Rattle.ff_machine.specs.Alone.{AreNodes};
ghost use Rattle.ff_machine.specs.Nodes as nodes;
ghost use Rattle.ff_machine.specs.References.{NodeRefers};
ghost use Rattle.ff_machine.specs.Shapes as shapes;
ghost use Rattle.ff_machine.specs.Valid.{count_started};
ghost use Rattle.ff_records.specs.Counted.{made};

use crate::node::Node;
use crate::nodes::Nodes;
use ff_machine::Shape;
use ff_records::{Made, code_refers, shape_refers};
use ff_value::{NodeId, PageId};

impl Nodes {
    /// The page whose root a node is, where it is one.
    pub fn page(&self, n: NodeId) -> Option<PageId>
        requires { n.0 < length self.now }
        ensures { result ≡ shapes.page_of (nodes.node_at self.now n).shape }
    {
        self.at(n).page()
    }

    /// How many scripts were started.
    pub fn count_started(&self) -> u32
        ensures { result ≡ count_started self.now }
    {
        let mut count = 0;
        for i in 0..self.len() {
            if is_started(self.at(NodeId(i)).shape()) {
                count += 1;
            }
        }
        count
    }

    /// Whether what the nodes and their handlers refer to was made, by these counts.
    pub fn refer(&self, counts: Made) -> bool
        ensures value { IsTrue result ↔ All (NodeRefers (made counts)) self.now }
        ensures valid { AreNodes self.now }
    {
        for i in 0..self.len() {
            if !node_refers(counts, self.at(NodeId(i))) {
                return false;
            }
        }
        true
    }
}

fn node_refers(counts: Made, node: &Node) -> bool
    ensures { IsTrue result ↔ NodeRefers (made counts) node.now }
{
    for code in node.handlers().as_slice() {
        if !code_refers(counts, code) {
            return false;
        }
    }
    shape_refers(counts, node.shape())
}

fn is_started(shape: &Shape) -> bool
    ensures { result ≡ shapes.is_started shape.now }
{
    match shape {
        Shape::Script(_, started, _) => *started,
        Shape::Src(_, started, _) => *started,
        Shape::Page(_) => false,
        Shape::Text(_, _) => false,
        Shape::Link(_, _, _) => false,
        Shape::TextBox(_, _) => false,
        Shape::Button(_, _) => false,
        Shape::Div(_) => false,
    }
}
