//! Nodes that are made of records.
//!
//! Records have lists of children alone. One pass finds each node's parent and refuses a second
//! one, one finds how deep each node stands, at most 257 steps up from each, and marks are raised
//! level by level, the deepest first. A node that was put back has exactly the marks of what stands
//! at and below it.
ghost use Rattle.std.specs.Prelude.{◌≡◌, ◌<◌, ◌≤◌, All, IfOk, OnOk, length};
ghost use Rattle.ff_machine.specs.Alone.{AreNodes, AreTrees};
ghost use Rattle.ff_records.specs.Records.{node_recs};
ghost use Rattle.ff_records.specs.Restored.{Restores};
ghost use Rattle.ff_nodes.specs.Cells.{AreMarked, nodes_of};
ghost use Rattle.ff_nodes.specs.Laying.{HasOwn};
ghost use Rattle.ff_nodes.specs.Recorded.{AreDepths, AreMarkedBelow, AreMarkedFrom, made, node_of};

use crate::cell::NodeCell;
use crate::checking::are_nodes;
use crate::laying::new_cell;
use crate::node::Node;
use crate::nodes::Nodes;
use crate::parenting::{depths_of, parents_of};
use crate::raising::{cell_at, raise};
use ff_contract::Steps;
use ff_cow::CowVec;
use ff_machine::MOST_NODES;
use ff_records::{NodeRec, NodeRecs};
use ff_value::{NoMemory, NodeId};
use std::alloc::{AllocError, Global};
use std::sync::ledger::Ledger;

impl Nodes {
    /// The nodes that have these records, whose texts, scripts and lists they share. `None` exactly
    /// where no valid nodes have them: something is not well spelled or not of its kind, a child is
    /// no node or stands twice, or a chain of parents is too long.
    pub fn restore<C: Ledger>(
        alloc: Global,
        recs: &NodeRecs,
        copies: &mut Steps<C>,
    ) -> Result<Option<Nodes>, NoMemory>
        ensures value { IfOk result (Restores AreNodes node_recs recs.now) }
        ensures later { copies.old ≤ copies.new }
    {
        let recs = recs.as_slice();
        if recs.len() > MOST_NODES as usize {
            return Ok(None);
        }
        let valid = are_nodes(alloc, recs)?;
        if !valid {
            return Ok(None);
        }
        let Some(parents) = parents_of(alloc, recs)? else {
            return Ok(None);
        };
        let Some(depths) = depths_of(alloc, &parents)? else {
            return Ok(None);
        };
        let mut cells = cells_of(alloc, recs, &parents, copies)?;
        raise_all(&mut cells, &depths, copies)?;
        Ok(Some(Nodes { alloc, cells }))
    }
}

/// The cells of nodes under these parents, each with its own marks.
fn cells_of<C: Ledger>(
    alloc: Global,
    recs: &[NodeRec],
    parents: &[Option<NodeId>],
    copies: &mut Steps<C>,
) -> Result<CowVec<NodeCell>, NoMemory>
    requires { length parents.now ≡ length recs.now }
    ensures nodes { IfOk result (λ cells. nodes_of cells ≡ made recs.now parents.now) }
    ensures own { IfOk result (λ cells. All HasOwn cells) }
    ensures later { copies.old ≤ copies.new }
{
    let mut cells = CowVec::new(alloc);
    for i in 0..recs.len() {
        let cell = cell_of(&recs[i], parents[i])?;
        let Ok(()) = cells.push(cell, copies) else {
            return Err(AllocError);
        };
    }
    Ok(cells)
}

/// The cell of a node under this parent, with its own marks.
fn cell_of(rec: &NodeRec, parent: Option<NodeId>) -> Result<NodeCell, NoMemory>
    ensures node { IfOk result (λ cell. cell.node ≡ node_of rec.now parent) }
    ensures own { IfOk result HasOwn }
{
    let node = Node::of(rec.shape.copy()?, rec.on.copy()?, rec.kids.copy()?, parent);
    Ok(new_cell(node))
}

/// Raises the marks of each node to its parent, those of the deepest nodes first.
fn raise_all<C: Ledger>(
    cells: &mut CowVec<NodeCell>,
    depths: &[u32],
    copies: &mut Steps<C>,
) -> Result<(), NoMemory>
    requires trees { AreTrees (nodes_of cells.old) }
    requires depths { AreDepths (nodes_of cells.old) depths.now }
    requires own { All HasOwn cells.old }
    ensures nodes { OnOk result (nodes_of cells.new ≡ nodes_of cells.old) }
    ensures marks { OnOk result (AreMarked cells.new) }
    ensures later { copies.old ≤ copies.new }
{
    let mut depth = deepest(depths);
    while depth > 0 {
        raise_from_depth(cells, depths, depth, copies)?;
        depth -= 1;
    }
    Ok(())
}

/// The greatest of the numbers, 0 where there is none.
fn deepest(depths: &[u32]) -> u32
    ensures { All (λ d. d ≤ result) depths.now }
{
    let mut most = 0;
    for depth in depths {
        if *depth > most {
            most = *depth;
        }
    }
    most
}

/// Raises the marks of each node that stands so deep to its parent. Those of deeper ones were.
fn raise_from_depth<C: Ledger>(
    cells: &mut CowVec<NodeCell>,
    depths: &[u32],
    depth: u32,
    copies: &mut Steps<C>,
) -> Result<(), NoMemory>
    requires trees { AreTrees (nodes_of cells.old) }
    requires depths { AreDepths (nodes_of cells.old) depths.now }
    requires some { 0 < depth }
    requires marks { AreMarkedBelow (nodes_of cells.old) depth cells.old }
    ensures nodes { OnOk result (nodes_of cells.new ≡ nodes_of cells.old) }
    ensures marks { OnOk result (AreMarkedFrom (nodes_of cells.old) depth cells.new) }
    ensures later { copies.old ≤ copies.new }
{
    for i in 0..cells.len() {
        if depths[i as usize] == depth {
            let cell = cell_at(cells, NodeId(i));
            let marks = cell.marks;
            if let Some(p) = cell.node.parent() {
                raise(cells, p, marks, copies)?;
            }
        }
    }
    Ok(())
}
