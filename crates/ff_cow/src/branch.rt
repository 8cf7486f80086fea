// A higher layer: up to sixteen nodes of the layer below, each of which other lists may share.
ghost use Rattle.std.specs.Prelude.{◌≡◌, ◌+◌, ◌*◌, ◌/◌, ◌<◌, ◌≤◌, [], ◌∷◌, ◌++◌, map, length, IfErr, IfOk, OnOk, OnErr};
ghost use Rattle.std.specs.Rc.{rc_value};
ghost use Rattle.std.proofs.Common.{arith};
ghost use Rattle.ff_contract.specs.Rises.{RisesBy};
ghost use Rattle.ff_cow.specs.Nodes.{cells_of, AreNodes};
ghost use Rattle.ff_cow.specs.Edits.{edited_at};
ghost use Rattle.ff_cow.specs.Tower.{branch_cells, IsBranch};

use crate::cell::{Cell, NoMemory};
use crate::edit::Edit;
use crate::layer::{Layer, WIDTH, Writable};
use ff_contract::Steps;
use std::alloc::Global;
use std::rc::Rc;
use std::sync::ledger::Ledger;

#[derive(Drop)]
pub(crate) struct Branch<T> {
    kids: Vec<Rc<T>>,
}

impl<T> Branch<T> {
    /// A node above one node.
    pub(crate) fn above<V>(alloc: Global, kid: T) -> Result<Branch<T>, NoMemory>
    where
        T: Layer<V> + Drop,
        requires valid { T.is_valid kid }
        requires fits { length (T.cells kid) ≤ T.capacity }
        ensures cells { IfOk result (λ node. branch_cells T.cells node ≡ T.cells kid) }
        ensures valid { IfOk result (λ node. IsBranch T.capacity T.cells T.is_valid node) }
    {
        let mut kids = Vec::new(alloc);
        kids.push(Rc::new(alloc, kid)?)?;
        Ok(Branch { kids })
    }
}

impl<V, T: Layer<V>> Layer<V> for Branch<T> {
    ghost capacity = { 16 * T.capacity };

    ghost cells = { branch_cells T.cells };

    ghost is_valid = { IsBranch T.capacity T.cells T.is_valid };

    fn empty(alloc: Global) -> Branch<T> {
        Branch {
            kids: Vec::new(alloc),
        }
    }

    fn at(&self, i: usize, room: usize) -> &V {
        let kid_room = room / WIDTH;
        self.kids[i / kid_room].at(i % kid_room, kid_room)
    }
}

impl<V, T: Writable<V>> Writable<V> for Branch<T> {
    ghost copied = { λ _. 0 };

    fn duplicate<C: Ledger>(
        &self,
        _alloc: Global,
        _copies: &mut Steps<C>,
    ) -> Result<Branch<T>, NoMemory>
    where
        V: Cell<C>,
    {
        Ok(Branch {
            kids: self.kids.clone()?,
        })
    }

    fn edit<E: Edit<V>, C: Ledger>(
        &mut self,
        i: usize,
        room: usize,
        edit: E,
        alloc: Global,
        copies: &mut Steps<C>,
    ) -> Result<(), E>
    where
        V: Cell<C>,
    {
        let kid_room = room / WIDTH;
        let kid = &mut self.kids[i / kid_room];
        edit_in(kid, i % kid_room, kid_room, edit, alloc, copies)
    }

    fn push<C: Ledger>(
        &mut self,
        count: usize,
        room: usize,
        value: V,
        alloc: Global,
        copies: &mut Steps<C>,
    ) -> Result<(), V>
    where
        V: Cell<C>,
    {
        let kid_room = room / WIDTH;
        let Ok(()) = make_place(&mut self.kids, count, kid_room, alloc) else {
            return Err(value);
        };
        let kid = &mut self.kids[count / kid_room];
        push_in(kid, count % kid_room, kid_room, value, alloc, copies)
    }

    ghost few = { λ node valid. Prim.omega arith };

    ghost fewer = { λ node valid space. Prim.omega arith };
}

/// Puts an empty node behind the others, where all of them are full.
#[inline(always)]
fn make_place<V, T: Writable<V>>(
    kids: &mut Vec<Rc<T>>,
    count: usize,
    room: usize,
    alloc: Global,
) -> Result<(), NoMemory>
    requires nodes { AreNodes T.capacity T.cells T.is_valid (map rc_value kids.old.items) }
    requires count { count ≡ length (cells_of T.cells (map rc_value kids.old.items)) }
    requires room { room ≡ T.capacity }
    requires space { count < 16 * room }
    ensures cells { cells_of T.cells (map rc_value kids.new.items)
        ≡ cells_of T.cells (map rc_value kids.old.items) }
    ensures nodes { AreNodes T.capacity T.cells T.is_valid (map rc_value kids.new.items) }
    ensures last { OnOk result (length kids.new.items ≡ count / room + 1) }
{
    if count / room == kids.len() {
        kids.push(Rc::new(alloc, T::empty(alloc))?)?;
    }
    Ok(())
}

/// Changes the cell at `i` of a node, in a node of its own where another list shares it.
#[inline(always)]
fn edit_in<V, T: Writable<V>, E: Edit<V>, C: Ledger>(
    kid: &mut Rc<T>,
    i: usize,
    room: usize,
    edit: E,
    alloc: Global,
    copies: &mut Steps<C>,
) -> Result<(), E>
where
    V: Cell<C>,
    requires valid { T.is_valid (rc_value kid.old) }
    requires room { room ≡ T.capacity }
    requires within { i < length (T.cells (rc_value kid.old)) }
    ensures done { OnOk result (T.cells (rc_value kid.new)
        ≡ edited_at (E.edited edit) i (T.cells (rc_value kid.old))) }
    ensures kept { OnErr result (T.cells (rc_value kid.new) ≡ T.cells (rc_value kid.old)) }
    ensures returned { IfErr result (λ back. back ≡ edit) }
    ensures valid { T.is_valid (rc_value kid.new) }
    ensures copies { RisesBy 16 copies.old copies.new }
{
    let Ok(()) = unshare(kid, alloc, copies) else {
        return Err(edit);
    };
    // The node has one owner now, so `None` does not come.
    let Some(own) = Rc::get_mut(kid) else {
        return Err(edit);
    };
    own.edit(i, room, edit, alloc, copies)
}

/// Puts a cell behind the `count` cells of a node, into a node of its own where another list shares
/// it.
#[inline(always)]
fn push_in<V, T: Writable<V>, C: Ledger>(
    kid: &mut Rc<T>,
    count: usize,
    room: usize,
    value: V,
    alloc: Global,
    copies: &mut Steps<C>,
) -> Result<(), V>
where
    V: Cell<C>,
    requires valid { T.is_valid (rc_value kid.old) }
    requires room { room ≡ T.capacity }
    requires count { count ≡ length (T.cells (rc_value kid.old)) }
    requires space { count < room }
    ensures done { OnOk result (T.cells (rc_value kid.new)
        ≡ T.cells (rc_value kid.old) ++ value ∷ []) }
    ensures kept { OnErr result (T.cells (rc_value kid.new) ≡ T.cells (rc_value kid.old)) }
    ensures returned { IfErr result (λ back. back ≡ value) }
    ensures valid { T.is_valid (rc_value kid.new) }
    ensures copies { RisesBy 15 copies.old copies.new }
{
    let Ok(()) = unshare(kid, alloc, copies) else {
        return Err(value);
    };
    // The node has one owner now, so `None` does not come.
    let Some(own) = Rc::get_mut(kid) else {
        return Err(value);
    };
    own.push(count, room, value, alloc, copies)
}

/// Makes `kid` a node that no other list shares.
#[inline(always)]
fn unshare<V, T: Writable<V>, C: Ledger>(
    kid: &mut Rc<T>,
    alloc: Global,
    copies: &mut Steps<C>,
) -> Result<(), NoMemory>
where
    V: Cell<C>,
    requires valid { T.is_valid (rc_value kid.old) }
    ensures cells { T.cells (rc_value kid.new) ≡ T.cells (rc_value kid.old) }
    ensures valid { T.is_valid (rc_value kid.new) }
    ensures copies { RisesBy (T.copied (T.cells (rc_value kid.old))) copies.old copies.new }
{
    if Rc::strong_count(kid) > 1 {
        copy_shared(kid, alloc, copies)?;
    }
    Ok(())
}

/// Puts a copy of a node that other lists share in its place.
#[cold]
#[inline(never)]
fn copy_shared<V, T: Writable<V>, C: Ledger>(
    kid: &mut Rc<T>,
    alloc: Global,
    copies: &mut Steps<C>,
) -> Result<(), NoMemory>
where
    V: Cell<C>,
    requires valid { T.is_valid (rc_value kid.old) }
    ensures cells { T.cells (rc_value kid.new) ≡ T.cells (rc_value kid.old) }
    ensures valid { T.is_valid (rc_value kid.new) }
    ensures copies { RisesBy (T.copied (T.cells (rc_value kid.old))) copies.old copies.new }
{
    let own = kid.duplicate(alloc, copies)?;
    *kid = Rc::new(alloc, own)?;
    Ok(())
}
