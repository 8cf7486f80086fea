//! The parents of nodes and how deep they stand, found from records.
ghost use Rattle.std.specs.Prelude.{◌≡◌, ◌<◌, ◌≤◌, ℕ, suc, Some, IfOk, IsFalse, IsTrue, MatchOption, is_some, length};
ghost use Rattle.ff_value.specs.declared.ids.NodeId.{NodeId};
ghost use Rattle.ff_machine.specs.declared.limits.TheConstants.{MOST_NODES, MOST_TREE_DEPTH};
ghost use Rattle.ff_machine.specs.Nodes.{depth};
ghost use Rattle.ff_machine.specs.Shapes as shapes;
ghost use Rattle.ff_nodes.specs.Recorded as recorded;
ghost use Rattle.ff_nodes.specs.Recorded.{AreParents, HaveDepths, NoNodes, bare, parent_at};

use ff_machine::{MOST_TREE_DEPTH, Shape};
use ff_records::NodeRec;
use ff_value::{NoMemory, NodeId};
use std::alloc::Global;

/// The parent of each node, or `None` where a node would stand twice, or a page's root in a list of
/// children, or a child is no node.
pub(crate) fn parents_of(
    alloc: Global,
    recs: &[NodeRec],
) -> Result<Option<Vec<Option<NodeId>>>, NoMemory>
    requires { length recs.now ≤ MOST_NODES }
    ensures { IfOk result (λ found. MatchOption found (NoNodes recs.now)
        (λ parents. AreParents recs.now (length recs.now) parents.items)) }
{
    let mut parents = no_parents(alloc, recs)?;
    if !adopt_all(&mut parents, recs) {
        return Ok(None);
    }
    Ok(Some(parents))
}

/// No parent for each of the records.
fn no_parents(alloc: Global, recs: &[NodeRec]) -> Result<Vec<Option<NodeId>>, NoMemory>
    ensures { IfOk result (λ parents. AreParents recs.now 0 parents.items) }
{
    let mut parents = Vec::new(alloc);
    for _rec in recs {
        parents.push(None)?;
    }
    Ok(parents)
}

/// Puts each node as the parent of its children, and answers whether that can be done. After
/// `false` the parents are not stated.
fn adopt_all(parents: &mut [Option<NodeId>], recs: &[NodeRec]) -> bool
    requires few { length recs.now ≤ MOST_NODES }
    requires none { AreParents recs.now 0 parents.old }
    ensures adopted { IsTrue result → AreParents recs.now (length recs.now) parents.new }
    ensures refused { IsFalse result → NoNodes recs.now }
    ensures count { length parents.new ≡ length parents.old }
{
    for n in 0..recs.len() {
        if !adopt(parents, NodeId(n as u32), recs, recs[n].kids.as_slice()) {
            return false;
        }
    }
    true
}

/// Puts a node as the parent of its children, and answers whether each of them is a node that may
/// be a child and had no parent. After `false` the parents are not stated.
fn adopt(parents: &mut [Option<NodeId>], n: NodeId, recs: &[NodeRec], kids: &[NodeId]) -> bool
    requires so_far { AreParents recs.now n.0 parents.old }
    requires kids { kids.now ≡ recorded.kids recs.now n }
    ensures adopted { IsTrue result → AreParents recs.now (suc n.0) parents.new }
    ensures refused { IsFalse result → NoNodes recs.now }
    ensures count { length parents.new ≡ length parents.old }
{
    for kid in kids {
        let k = kid.0 as usize;
        if k >= recs.len() {
            return false;
        }
        if is_page(&recs[k].shape) {
            return false;
        }
        if parents[k].is_some() {
            return false;
        }
        parents[k] = Some(n);
    }
    true
}

fn is_page(shape: &Shape) -> bool
    ensures { result ≡ is_some (shapes.page_of shape.now) }
{
    matches!(shape, Shape::Page(_))
}

/// How many nodes stand above each node, or `None` where they are too many above one.
pub(crate) fn depths_of(
    alloc: Global,
    parents: &[Option<NodeId>],
) -> Result<Option<Vec<u32>>, NoMemory>
    requires lives { (k : ℕ) (p : NodeId) → parent_at parents.now k ≡ Some p
        → p.0 < length parents.now }
    ensures { IfOk result (λ found. MatchOption found
        ((n : NodeId) × (MOST_TREE_DEPTH < depth (bare parents.now) n))
        (λ depths. HaveDepths parents.now (length parents.now) depths.items)) }
{
    let mut depths = Vec::new(alloc);
    for n in 0..parents.len() {
        let Some(depth) = depth_of(parents, n) else {
            return Ok(None);
        };
        depths.push(depth)?;
    }
    Ok(Some(depths))
}

/// How many nodes stand above a node, where they are no more than may be.
fn depth_of(parents: &[Option<NodeId>], n: usize) -> Option<u32>
    requires there { n < length parents.now }
    requires lives { (k : ℕ) (p : NodeId) → parent_at parents.now k ≡ Some p
        → p.0 < length parents.now }
    ensures { MatchOption result (MOST_TREE_DEPTH < depth (bare parents.now) (record { 0 = n }))
        (λ d. (d ≡ depth (bare parents.now) (record { 0 = n })) × (d ≤ MOST_TREE_DEPTH)) }
{
    let mut at = n;
    for depth in 0..MOST_TREE_DEPTH + 1 {
        match parents[at] {
            None => return Some(depth),
            Some(p) => at = p.0 as usize,
        }
    }
    None
}
