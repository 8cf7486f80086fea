//! Writing a variable, and linking a new one.
ghost use Rattle.std.specs.Prelude.{◌≡◌, ◌<◌, Some, [], ◌∷◌, ◌++◌, OnOk, OnErr, length, slice_get, slice_set};
ghost use Rattle.ff_contract.specs.Rises.{RisesBy};
ghost use Rattle.ff_acts.specs.declared.cells.VarCell.{VarCell as Variable};
ghost use Rattle.ff_acts.specs.Stops.{LivesAt, put_top, put_link};

use crate::cells::{ActCell, VarCell, cell_at};
use crate::edits::{LeftLink, NewValue, RightLink};
use crate::searching::Place;
use ff_contract::Steps;
use ff_cow::CowVec;
use ff_name::NoMemory;
use ff_value::{ActId, Val};
use std::alloc::AllocError;
use std::sync::ledger::Ledger;

/// Gives the variable at a place another value. A refusal, for want of memory, leaves the list as
/// it was.
pub(crate) fn write<C: Ledger>(
    vars: &mut CowVec<VarCell>,
    k: u32,
    value: &Val,
    copies: &mut Steps<C>,
) -> Result<(), NoMemory>
    requires { k < length vars.old }
    ensures done { (cell : Variable) → slice_get vars.old k ≡ Some cell
        → OnOk result (vars.new ≡ slice_set vars.old k (record cell { value = value.now })) }
    ensures kept { OnErr result (vars.new ≡ vars.old) }
    ensures copies { RisesBy 16 copies.old copies.new }
{
    let value = value.copy()?;
    let Ok(()) = vars.edit(k, NewValue { value }, copies) else {
        return Err(AllocError);
    };
    Ok(())
}

/// Sets the link at a place of the activation. After a refusal, for want of memory, the lists are
/// not stated.
pub(crate) fn link<C: Ledger>(
    acts: &mut CowVec<ActCell>,
    vars: &mut CowVec<VarCell>,
    a: ActId,
    place: Place,
    to: u32,
    copies: &mut Steps<C>,
) -> Result<(), NoMemory>
    requires lives { a.0 < length acts.old }
    requires place { LivesAt vars.old place }
    ensures top { OnOk result (acts.new ≡ put_top acts.old a place to) }
    ensures link { OnOk result (vars.new ≡ put_link vars.old place to) }
    ensures copies { RisesBy 16 copies.old copies.new }
{
    match place {
        Place::Top => {
            let parent = cell_at(acts, a.0).parent;
            let cell = ActCell {
                parent,
                top: Some(to),
            };
            let Ok(()) = acts.set(a.0, cell, copies) else {
                return Err(AllocError);
            };
        }
        Place::Left(k) => {
            let Ok(()) = vars.edit(k, LeftLink { to }, copies) else {
                return Err(AllocError);
            };
        }
        Place::Right(k) => {
            let Ok(()) = vars.edit(k, RightLink { to }, copies) else {
                return Err(AllocError);
            };
        }
    }
    Ok(())
}

/// Puts a new variable at the end, and sets the link at a place of the activation to it. After a
/// refusal, for want of memory, the lists are not stated.
pub(crate) fn grow<C: Ledger>(
    acts: &mut CowVec<ActCell>,
    vars: &mut CowVec<VarCell>,
    place: Place,
    cell: VarCell,
    copies: &mut Steps<C>,
) -> Result<(), NoMemory>
    requires lives { cell.owner.0 < length acts.old }
    requires place { LivesAt vars.old place }
    ensures top { OnOk result (acts.new ≡ put_top acts.old cell.owner place (length vars.old)) }
    ensures link { OnOk result (vars.new ≡ put_link vars.old place (length vars.old) ++ cell ∷ []) }
    ensures copies { RisesBy 31 copies.old copies.new }
{
    let number = vars.len();
    link(acts, vars, cell.owner, place, number, copies)?;
    let Ok(()) = vars.push(cell, copies) else {
        return Err(AllocError);
    };
    Ok(())
}
