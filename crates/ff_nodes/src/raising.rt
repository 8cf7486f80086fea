//! Marks, raised to the nodes above.
ghost use Rattle.std.specs.Prelude.{◌≡◌, ◌+◌, ◌*◌, ◌<◌, ◌≤◌, length, OnOk};
ghost use Rattle.ff_contract.specs.Rises.{RisesBy};
ghost use Rattle.ff_machine.specs.Alone.{AreTrees};
ghost use Rattle.ff_machine.specs.Nodes.{depth};
ghost use Rattle.ff_nodes.specs.Cells as views;
ghost use Rattle.ff_nodes.specs.Cells.{AreMarked, nodes_of};
ghost use Rattle.ff_nodes.specs.Raised.{AreMarkedBut, AreMarkedUpTo, ArePast, IsRaised};

use crate::cell::NodeCell;
use crate::marks::Marks;
use ff_contract::Steps;
use ff_cow::CowVec;
use ff_value::{NoMemory, NodeId};
use std::alloc::AllocError;
use std::sync::ledger::Ledger;

/// Adds marks to those of a node.
pub(crate) fn raise<C: Ledger>(
    cells: &mut CowVec<NodeCell>,
    n: NodeId,
    marks: Marks,
    copies: &mut Steps<C>,
) -> Result<(), NoMemory>
    requires { n.0 < length cells.old }
    ensures raised { OnOk result (IsRaised cells.old cells.new n marks) }
    ensures copies { RisesBy 16 copies.old copies.new }
{
    let cell = cell_at(cells, n);
    let more = cell.marks.with(marks);
    if more.names == cell.marks.names && more.kinds == cell.marks.kinds {
        return Ok(());
    }
    let node = cell.node.copy()?;
    let Ok(()) = cells.set(n.0, NodeCell { node, marks: more }, copies) else {
        return Err(AllocError);
    };
    Ok(())
}

/// Raises a node's marks to all nodes above it. Before, all but its own are within those of the
/// node above.
pub(crate) fn raise_above<C: Ledger>(
    cells: &mut CowVec<NodeCell>,
    n: NodeId,
    copies: &mut Steps<C>,
) -> Result<(), NoMemory>
    requires lives { n.0 < length cells.old }
    requires trees { AreTrees (nodes_of cells.old) }
    requires marks { AreMarkedBut n cells.old }
    ensures nodes { OnOk result (nodes_of cells.new ≡ nodes_of cells.old) }
    ensures marks { OnOk result (AreMarked cells.new) }
    ensures copies { RisesBy (16 * depth (nodes_of cells.old) n) copies.old copies.new }
{
    let cell = cell_at(cells, n);
    let marks = cell.marks;
    match cell.node.parent() {
        None => Ok(()),
        Some(p) => {
            raise(cells, p, marks, copies)?;
            raise_above(cells, p, copies)
        }
    }
}

/// Raises the marks of each node from a number on to the nodes above it, the last node's first.
/// Those have smaller numbers, which begin there too.
pub(crate) fn raise_from<C: Ledger>(
    cells: &mut CowVec<NodeCell>,
    first: u32,
    copies: &mut Steps<C>,
) -> Result<(), NoMemory>
    requires within { first ≤ length cells.old }
    requires past { ArePast first (nodes_of cells.old) }
    requires marks { AreMarkedUpTo first (length cells.old) cells.old }
    ensures nodes { OnOk result (nodes_of cells.new ≡ nodes_of cells.old) }
    ensures marks { OnOk result (AreMarked cells.new) }
    ensures later { copies.old ≤ copies.new }
    ensures copies { copies.new + 16 * first ≤ copies.old + 16 * length cells.old }
{
    let mut i = cells.len();
    while i > first {
        i -= 1;
        let cell = cell_at(cells, NodeId(i));
        let marks = cell.marks;
        if let Some(p) = cell.node.parent() {
            raise(cells, p, marks, copies)?;
        }
    }
    Ok(())
}

/// The cell of a node.
pub(crate) fn cell_at(cells: &CowVec<NodeCell>, n: NodeId) -> &NodeCell
    requires { n.0 < length cells.now }
    ensures { result.now ≡ views.cell_at cells.now n }
{
    match cells.get(n.0) {
        Some(cell) => cell,
        None => unreachable!(),
    }
}
