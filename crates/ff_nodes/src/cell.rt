//! A node as a cell of a list that forks share.
ghost use Rattle.std.specs.Prelude.{◌≡◌};

use crate::marks::Marks;
use crate::node::Node;
use ff_contract::Steps;
use ff_cow::Cell;
use ff_value::NoMemory;
use std::sync::ledger::Ledger;

/// A node, and marks of it and of the nodes below it.
#[derive(Drop)]
pub(crate) struct NodeCell {
    pub(crate) node: Node,
    pub(crate) marks: Marks,
}

impl<C: Ledger> Cell<C> for NodeCell {
    fn copy(&self, copies: &mut Steps<C>) -> Result<NodeCell, NoMemory> {
        copies.tick();
        Ok(NodeCell {
            node: self.node.copy()?,
            marks: self.marks,
        })
    }
}
