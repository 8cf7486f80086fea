// The root of a list: a low node for a short list, so that its cells are near, and else a high one.
ghost use Rattle.std.specs.Prelude.{◌≡◌, ◌*◌, ◌<◌, ◌≤◌, length, IfOk, OnOk};
ghost use Rattle.std.specs.Rc.{rc_value};
ghost use Rattle.std.proofs.Common.{arith};
ghost use Rattle.ff_cow.specs.Tower.{Tower, branch_cells, leaf_cells, root_cells, root_room, tower_cells, IsBranch, IsLeaf, IsRoot, IsTower};

use crate::branch::Branch;
use crate::cell::{Cell, NoMemory};
use crate::edit::Edit;
use crate::layer::{Layer, WIDTH, Writable};
use crate::leaf::Leaf;
use ff_contract::Steps;
use std::alloc::Global;
use std::rc::Rc;
use std::sync::ledger::Ledger;

/// The most cells of a low root.
const MOST_LOW_CELLS: usize = WIDTH * WIDTH;

pub(crate) enum Root<V> {
    Low(Branch<Leaf<V>>),
    High(Branch<Branch<Branch<Branch<Leaf<V>>>>>),
}

// Written out, so that the proof of a caller sees one call and not two cases.
impl<V: Drop> Drop for Root<V> {
    fn drop(self) {
        match self {
            Root::Low(_low) => (),
            Root::High(_high) => (),
        }
    }
}

impl<V> Layer<V> for Root<V> {
    ghost capacity = { 1048576 };

    ghost cells = { root_cells };

    ghost is_valid = { IsRoot };

    fn empty(alloc: Global) -> Root<V> {
        Root::Low(Branch::empty(alloc))
    }

    fn at(&self, i: usize, room: usize) -> &V {
        match self {
            Root::Low(node) => node.at(i, MOST_LOW_CELLS),
            Root::High(node) => node.at(i, room),
        }
    }
}

impl<V: Drop> Writable<V> for Root<V> {
    ghost copied = { λ _. 0 };

    fn duplicate<C: Ledger>(
        &self,
        alloc: Global,
        copies: &mut Steps<C>,
    ) -> Result<Root<V>, NoMemory>
    where
        V: Cell<C>,
    {
        match self {
            Root::Low(node) => Ok(Root::Low(node.duplicate(alloc, copies)?)),
            Root::High(node) => Ok(Root::High(node.duplicate(alloc, copies)?)),
        }
    }

    fn edit<E: Edit<V>, C: Ledger>(
        &mut self,
        i: usize,
        room: usize,
        edit: E,
        alloc: Global,
        copies: &mut Steps<C>,
    ) -> Result<(), E>
    where
        V: Cell<C>,
    {
        match self {
            Root::Low(node) => node.edit(i, MOST_LOW_CELLS, edit, alloc, copies),
            Root::High(node) => node.edit(i, room, edit, alloc, copies),
        }
    }

    fn push<C: Ledger>(
        &mut self,
        count: usize,
        room: usize,
        value: V,
        alloc: Global,
        copies: &mut Steps<C>,
    ) -> Result<(), V>
    where
        V: Cell<C>,
    {
        let Ok(()) = make_room(self, count, alloc, copies) else {
            return Err(value);
        };
        match self {
            Root::Low(node) => node.push(count, MOST_LOW_CELLS, value, alloc, copies),
            Root::High(node) => node.push(count, room, value, alloc, copies),
        }
    }

    ghost few = { λ node valid. Prim.omega arith };

    ghost fewer = { λ node valid space. Prim.omega arith };
}

/// Puts a high root in the place of a low one that is full.
fn make_room<V: Drop, C: Ledger>(
    root: &mut Root<V>,
    count: usize,
    alloc: Global,
    copies: &mut Steps<C>,
) -> Result<(), NoMemory>
where
    V: Cell<C>,
    requires valid { IsRoot root.old }
    requires count { count ≡ length (root_cells root.old) }
    requires space { count < 1048576 }
    ensures cells { root_cells root.new ≡ root_cells root.old }
    ensures valid { IsRoot root.new }
    ensures room { OnOk result (count < root_room root.new) }
    ensures copies { copies.new ≡ copies.old }
{
    if let Root::Low(node) = root {
        if count == MOST_LOW_CELLS {
            let high = raised(node, alloc, copies)?;
            *root = Root::High(high);
        }
    }
    Ok(())
}

/// A high node with the cells of a low one, whose leaves it shares.
fn raised<V: Drop, C: Ledger>(
    low: &Branch<Leaf<V>>,
    alloc: Global,
    copies: &mut Steps<C>,
) -> Result<Branch<Branch<Branch<Branch<Leaf<V>>>>>, NoMemory>
where
    V: Cell<C>,
    requires { IsBranch 16 leaf_cells IsLeaf low.now }
    ensures cells { IfOk result (λ high. tower_cells high ≡ branch_cells leaf_cells low.now) }
    ensures valid { IfOk result IsTower }
    ensures copies { copies.new ≡ copies.old }
{
    let node = low.duplicate(alloc, copies)?;
    let node = Branch::above(alloc, node)?;
    let node = Branch::above(alloc, node)?;
    Branch::above(alloc, node)
}
