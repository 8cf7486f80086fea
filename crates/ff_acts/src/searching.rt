//! The search for a variable.
ghost use Rattle.std.specs.Prelude.{◌≡◌, ◌<◌, length};
ghost use Rattle.ff_acts.specs.Digits.{spread};
ghost use Rattle.ff_acts.specs.Held.{AreHeld};
ghost use Rattle.ff_acts.specs.Stops.{IsStop, IsHolder};

use crate::cells::{ActCell, VarCell, cell_at};
use crate::digits::{Digits, spread_of};
use ff_cow::CowVec;
use ff_name::Name;
use ff_value::ActId;

/// A link of an activation or of a variable, by the place of the variable.
#[derive(Clone, Copy)]
pub(crate) enum Place {
    /// The activation's link to its first variable.
    Top,
    Left(u32),
    Right(u32),
}

/// Where a search for a variable ends.
#[derive(Clone, Copy)]
pub(crate) enum Stop {
    /// At the variable, by its place.
    Found(u32),
    /// At a link that leads nowhere, since the activation hasn't the variable.
    Open(Place),
}

/// Where the search for an activation's variable ends.
#[inline(always)]
pub(crate) fn search(
    acts: &CowVec<ActCell>,
    vars: &CowVec<VarCell>,
    a: ActId,
    name: &Name,
    first_digits: u32,
) -> Stop
    requires lives { a.0 < length acts.now }
    requires held { AreHeld acts.now vars.now }
    requires digits { first_digits ≡ spread name.now }
    ensures { IsStop acts.now vars.now a name.now result }
{
    let mut place = Place::Top;
    let mut link = cell_at(acts, a.0).top;
    let mut rest = Digits::of(name, first_digits);
    while let Some(k) = link {
        let cell = cell_at(vars, k);
        if cell.is_var(a, name) {
            return Stop::Found(k);
        }
        if rest.next() {
            place = Place::Right(k);
            link = cell.right;
        } else {
            place = Place::Left(k);
            link = cell.left;
        }
    }
    Stop::Open(place)
}

/// The place of the nearest variable of that name: the activation's, or that of one around it.
pub(crate) fn nearest(
    acts: &CowVec<ActCell>,
    vars: &CowVec<VarCell>,
    a: ActId,
    name: &Name,
) -> Option<u32>
    requires lives { a.0 < length acts.now }
    requires held { AreHeld acts.now vars.now }
    ensures { IsHolder acts.now vars.now a name.now result }
{
    let first_digits = spread_of(name);
    let mut at = a;
    loop {
        match search(acts, vars, at, name, first_digits) {
            Stop::Found(k) => return Some(k),
            Stop::Open(_place) => match cell_at(acts, at.0).parent {
                Some(parent) => at = parent,
                None => return None,
            },
        }
    }
}
