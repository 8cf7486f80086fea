//! The cells of activations and of variables.
ghost use Rattle.std.specs.Prelude.{◌≡◌, ◌<◌, IfOk, None, Some, length, slice_get};

use ff_contract::Steps;
use ff_cow::{Cell, CowVec};
use ff_name::{Name, NoMemory};
use ff_value::{ActId, Val};
use std::sync::ledger::Ledger;

/// An activation: the one around it, where there is one, and the place of the first variable that
/// was declared in it.
#[derive(Drop)]
pub(crate) struct ActCell {
    pub(crate) parent: Option<ActId>,
    pub(crate) top: Option<u32>,
}

/// A variable: its activation, its name and its value, and the places of the two variables of that
/// activation at which a search for another name goes on.
#[derive(Drop)]
pub(crate) struct VarCell {
    pub(crate) owner: ActId,
    pub(crate) name: Name,
    pub(crate) value: Val,
    pub(crate) left: Option<u32>,
    pub(crate) right: Option<u32>,
}

impl VarCell {
    ghost use Rattle.ff_acts.specs.Held.{is_var};

    /// A variable from which no search goes on. It shares the name and the value.
    pub(crate) fn of(owner: ActId, name: &Name, value: &Val) -> Result<VarCell, NoMemory>
        ensures { IfOk result (λ cell. cell ≡ record
            { owner = owner; name = name.now; value = value.now; left = None; right = None }) }
    {
        Ok(VarCell {
            owner,
            name: name.copy()?,
            value: value.copy()?,
            left: None,
            right: None,
        })
    }

    /// Whether it is the activation's variable of that name.
    pub(crate) fn is_var(&self, a: ActId, name: &Name) -> bool
        ensures { result ≡ is_var a name.now self.now }
    {
        self.owner == a && self.name.as_bytes() == name.as_bytes()
    }

    /// The value, lent.
    pub(crate) fn value(&self) -> &Val
        ensures { result.now ≡ self.now.value }
    {
        &self.value
    }
}

impl<C: Ledger> Cell<C> for ActCell {
    fn copy(&self, copies: &mut Steps<C>) -> Result<ActCell, NoMemory> {
        copies.tick();
        Ok(ActCell {
            parent: self.parent,
            top: self.top,
        })
    }
}

impl<C: Ledger> Cell<C> for VarCell {
    fn copy(&self, copies: &mut Steps<C>) -> Result<VarCell, NoMemory> {
        copies.tick();
        Ok(VarCell {
            owner: self.owner,
            name: self.name.copy()?,
            value: self.value.copy()?,
            left: self.left,
            right: self.right,
        })
    }
}

/// The cell at a place that there is.
pub(crate) fn cell_at<V>(cells: &CowVec<V>, i: u32) -> &V
    requires { i < length cells.now }
    ensures { slice_get cells.now i ≡ Some result.now }
{
    match cells.get(i) {
        Some(cell) => cell,
        None => unreachable!(),
    }
}
