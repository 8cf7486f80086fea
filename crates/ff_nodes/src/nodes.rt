//! The nodes of one browser.
ghost use Rattle.std.specs.Prelude.{◌≡◌, ◌<◌, ◌≤◌, [], length, IfOk, OnOk, OnErr};
ghost use Rattle.ff_contract.specs.Rises.{RisesBy};
ghost use Rattle.ff_machine.specs.declared.limits.TheConstants.{MOST_NODES};
ghost use Rattle.ff_machine.specs.Alone.{AreNodes, IsNode};
ghost use Rattle.ff_machine.specs.Nodes as nodes;
ghost use Rattle.ff_machine.specs.Shapes as shapes;

use crate::cell::NodeCell;
use crate::edits::OfNode;
use crate::node::Node;
use ff_contract::Steps;
use ff_cow::{CowVec, Edit};
use ff_value::{NoMemory, NodeId};
use std::alloc::{AllocError, Global};
use std::marker::Model;
use std::sync::ledger::Ledger;

/// Node trees, seen as the list of the nodes by their numbers.
pub struct Nodes {
    pub(crate) alloc: Global,
    pub(crate) cells: CowVec<NodeCell>,
}

// Written out, so that the proof of a caller sees one call and not a part for each field.
impl Drop for Nodes {
    fn drop(self) {
        let Nodes {
            alloc: _,
            cells: _cells,
        } = self;
    }
}

impl Model for Nodes {
    ghost use Rattle.std.specs.Prelude.{List};
    ghost use Rattle.std.specs.Coded.{coded_list};
    ghost use Rattle.ff_machine.specs.Nodes as nodes;
    ghost use Rattle.ff_machine.specs.Codes.{coded_node};
    ghost use Rattle.ff_nodes.specs.Cells.{nodes_of, AreCells};

    ghost Value = { List nodes.Node };

    ghost coded = { coded_list coded_node };

    ghost view = { λ s. nodes_of s.cells };

    ghost invariant = { λ s. AreCells s.cells };
}

impl Nodes {
    /// No nodes, which take no memory. What they grow by is taken from `alloc`.
    pub fn new(alloc: Global) -> Nodes
        ensures { result ≡ [] }
    {
        Nodes {
            alloc,
            cells: CowVec::new(alloc),
        }
    }

    /// How many nodes were made.
    pub fn len(&self) -> u32
        ensures value { result ≡ length self.now }
        ensures bound { result ≤ MOST_NODES }
        ensures valid { AreNodes self.now }
    {
        self.cells.len()
    }

    /// Equal nodes that share their cells with these: none is copied, and no later change of one
    /// of the two is seen in the other. It is refused only for want of memory.
    pub fn fork<C: Ledger>(&self, copies: &mut Steps<C>) -> Result<Nodes, NoMemory>
        ensures equal { IfOk result (λ fork. fork ≡ self.now) }
        ensures copies { copies.new ≡ copies.old }
    {
        Ok(Nodes {
            alloc: self.alloc,
            cells: self.cells.fork(copies)?,
        })
    }

    /// The node of a number.
    pub(crate) fn at(&self, n: NodeId) -> &Node
        requires { n.0 < length self.now }
        ensures value { result.now ≡ nodes.node_at self.now n }
        ensures valid { AreNodes self.now }
    {
        match self.cells.get(n.0) {
            Some(cell) => &cell.node,
            None => unreachable!(),
        }
    }

    /// Changes a node, where it lies, into one that has the same links, kind and name. A refusal,
    /// for want of memory, leaves the nodes as they were.
    pub(crate) fn change<E: Edit<Node> + Drop, C: Ledger>(
        &mut self,
        n: NodeId,
        edit: E,
        copies: &mut Steps<C>,
    ) -> Result<(), NoMemory>
        requires lives { n.0 < length self.old }
        requires valid { IsNode (E.edited edit (nodes.node_at self.old n)) }
        requires children { (E.edited edit (nodes.node_at self.old n)).children
            ≡ nodes.children self.old n }
        requires parent { (E.edited edit (nodes.node_at self.old n)).parent
            ≡ nodes.parent self.old n }
        requires kind { shapes.kind_of (E.edited edit (nodes.node_at self.old n)).shape
            ≡ shapes.kind_of (nodes.node_at self.old n).shape }
        requires name { shapes.name_of (E.edited edit (nodes.node_at self.old n)).shape
            ≡ shapes.name_of (nodes.node_at self.old n).shape }
        ensures done { OnOk result (self.new ≡ nodes.set_node self.old n
            (E.edited edit (nodes.node_at self.old n))) }
        ensures kept { OnErr result (self.new ≡ self.old) }
        ensures copies { RisesBy 16 copies.old copies.new }
    {
        let Ok(()) = self.cells.edit(n.0, OfNode { edit }, copies) else {
            return Err(AllocError);
        };
        Ok(())
    }
}
