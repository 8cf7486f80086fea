//! One tree under another.
ghost use Rattle.std.specs.Prelude.{◌≡◌, ◌<◌, ◌≤◌, ℕ, None, pos, length, nat_abs, IfOk, IfSome, OnOk, slice_set};
ghost use Rattle.std.specs.List as lists;
ghost use Rattle.ff_contract.specs.Rises.{RisesBy};
ghost use Rattle.ff_machine.specs.declared.limits.TheConstants.{MOST_TREE_DEPTH};
ghost use Rattle.ff_machine.specs.Nodes as nodes;
ghost use Rattle.ff_operators.specs.Answers.{Answers, OnFault};
ghost use Rattle.ff_nodes.specs.Cells.{cell_at};

use crate::cell::NodeCell;
use crate::node::Node;
use crate::nodes::Nodes;
use crate::raising::raise_above;
use ff_contract::Steps;
use ff_cow::CowVec;
use ff_machine::MOST_TREE_DEPTH;
use ff_operators::Fail;
use ff_value::{Fault, Ids, NoMemory, NodeId};
use std::alloc::{AllocError, Global};
use std::mem;
use std::sync::ledger::Ledger;

impl Nodes {
    /// Puts a tree under a node, at a place among its children that counts from 0. It is refused,
    /// in this order, with `Kind` exactly where the parent is of a kind that has no children, and
    /// where the child is the root of a page; with `Range` where the child has a parent, where the
    /// parent is in the child's tree, and where the place isn't from 0 to the number of children;
    /// and with `Limit` where the deepest node of the child's tree would stand over
    /// [`MOST_TREE_DEPTH`] below the root. After a fault nothing has changed. After want of memory
    /// the content isn't stated.
    pub fn insert<C: Ledger>(
        &mut self,
        parent: NodeId,
        child: NodeId,
        at: i64,
        copies: &mut Steps<C>,
    ) -> Result<(), Fail>
        requires parent_lives { parent.0 < length self.old }
        requires child_lives { child.0 < length self.old }
        ensures done { OnOk result (self.new ≡ nodes.joined self.old parent child (nat_abs at)) }
        ensures answer { Answers (nodes.insert_fault self.old parent child at) result }
        ensures kept { OnFault result (self.new ≡ self.old) }
        ensures copies { RisesBy 4128 copies.old copies.new }
    {
        let place = self.place_for(parent, child, at)?;
        self.join(parent, child, place, copies)?;
        Ok(())
    }

    /// The place for a child, or why it can't stand there.
    fn place_for(&self, parent: NodeId, child: NodeId, at: i64) -> Result<usize, Fail>
        requires parent_lives { parent.0 < length self.now }
        requires child_lives { child.0 < length self.now }
        ensures answer { Answers (nodes.insert_fault self.now parent child at) result }
        ensures place { IfOk result (λ place. at ≡ pos place) }
    {
        let over = self.at(parent);
        let under = self.at(child);
        if !over.may_have_children() {
            return Err(Fail::Fault(Fault::Kind));
        }
        if under.page().is_some() {
            return Err(Fail::Fault(Fault::Kind));
        }
        if under.parent().is_some() {
            return Err(Fail::Fault(Fault::Range));
        }
        if self.root_of(parent).0 == child.0 {
            return Err(Fail::Fault(Fault::Range));
        }
        let Some(place) = place_of(at, over.children().len()) else {
            return Err(Fail::Fault(Fault::Range));
        };
        if self.depth_of(parent) + self.height(child, 0) >= MOST_TREE_DEPTH {
            return Err(Fail::Fault(Fault::Limit));
        }
        Ok(place)
    }

    /// How deep the deepest node of the tree of `n` stands, where `n` stands at `depth`.
    fn height(&self, n: NodeId, depth: u32) -> u32
        requires lives { n.0 < length self.now }
        requires depth { depth ≡ nodes.depth self.now n }
        ensures value { result ≡ nodes.height self.now n }
        ensures bound { result ≤ MOST_TREE_DEPTH }
    {
        let node = self.at(n);
        let mut deepest = depth;
        for child in node.children().as_slice() {
            deepest = deepest.max(self.height(*child, depth + 1));
        }
        deepest
    }

    /// Puts a tree under a node, where no fault forbids it.
    fn join<C: Ledger>(
        &mut self,
        parent: NodeId,
        child: NodeId,
        place: usize,
        copies: &mut Steps<C>,
    ) -> Result<(), NoMemory>
        requires parent_lives { parent.0 < length self.old }
        requires child_lives { child.0 < length self.old }
        requires clear { nodes.insert_fault self.old parent child (pos place) ≡ None }
        ensures done { OnOk result (self.new ≡ nodes.joined self.old parent child place) }
        ensures copies { RisesBy 4128 copies.old copies.new }
    {
        let under = with_parent(self.at(child), parent)?;
        let over = with_child(self.at(parent), place, child, self.alloc)?;
        let mut next = mem::replace(&mut self.cells, CowVec::new(self.alloc));
        write_node(&mut next, child, under, copies)?;
        write_node(&mut next, parent, over, copies)?;
        raise_above(&mut next, child, copies)?;
        self.cells = next;
        Ok(())
    }
}

/// The place among so many children or after them that a number is, if it is one.
fn place_of(at: i64, count: usize) -> Option<usize>
    ensures value { result ≡ nodes.place_of at count }
    ensures number { IfSome result (λ place. at ≡ pos place) }
{
    if at < 0 {
        return None;
    }
    let place = at as usize;
    if count < place { None } else { Some(place) }
}

/// The node under another one.
fn with_parent(node: &Node, parent: NodeId) -> Result<Node, NoMemory>
    ensures { IfOk result (λ under. under ≡ record node.now { parent = Some parent }) }
{
    Ok(Node::of(
        node.shape().copy()?,
        node.handlers().copy()?,
        node.children().copy()?,
        Some(parent),
    ))
}

/// The node with a child more, at a place among its children or after them.
fn with_child(node: &Node, place: usize, child: NodeId, alloc: Global) -> Result<Node, NoMemory>
    requires { place ≤ length node.now.children }
    ensures { IfOk result (λ over. over ≡ record node.now
        { children = lists.insert node.now.children place child }) }
{
    let others = node.children().as_slice();
    let mut children = Vec::with_capacity(alloc, others.len() + 1)?;
    children.extend_from_slice(others)?;
    children.insert(place, child)?;
    Ok(Node::of(
        node.shape().copy()?,
        node.handlers().copy()?,
        Ids::from_vec(alloc, children)?,
        node.parent(),
    ))
}

/// Writes a node, whose marks stay.
fn write_node<C: Ledger>(
    cells: &mut CowVec<NodeCell>,
    n: NodeId,
    node: Node,
    copies: &mut Steps<C>,
) -> Result<(), NoMemory>
    requires { n.0 < length cells.old }
    ensures done { OnOk result (cells.new ≡ slice_set cells.old n.0
        (record { node = node; marks = (cell_at cells.old n).marks })) }
    ensures copies { RisesBy 16 copies.old copies.new }
{
    let marks = match cells.get(n.0) {
        Some(cell) => cell.marks,
        None => unreachable!(),
    };
    let Ok(()) = cells.set(n.0, NodeCell { node, marks }, copies) else {
        return Err(AllocError);
    };
    Ok(())
}
