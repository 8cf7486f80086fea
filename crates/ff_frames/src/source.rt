ghost use Rattle.std.specs.Prelude.{◌≡◌, ◌<◌, IfOk, Some, length, slice_get};

use ff_shared::Shared;
use ff_tree::{Body, Expr, Exprs};
use ff_value::NoMemory;
use std::alloc::Global;
use std::marker::Model;

/// Where an expression stands: by itself, or at a place in a list.
pub(crate) enum Place {
    Body(Body),
    Item(Exprs, usize),
}

// Written out, so that the proof of a caller sees one call and not a case for each variant.
impl Drop for Place {
    fn drop(self) {
        match self {
            Place::Body(_body) => (),
            Place::Item(_list, _) => (),
        }
    }
}

/// An expression of a script, held by a reference to where it stands. Contracts see the expression.
#[derive(Drop)]
pub(crate) struct Source {
    place: Place,
}

impl Model for Source {
    ghost use Rattle.ff_tree.specs.declared.tree.Expr.{Expr};
    ghost use Rattle.ff_tree.specs.contracts.tree.Expr as expr;
    ghost use Rattle.ff_frames.specs.Places.{IsPlace, at_place};

    ghost Value = { Expr };

    ghost coded = { expr.the_row.coded };

    ghost view = { λ s. at_place s.place };

    ghost invariant = { λ s. IsPlace s.place };
}

impl Source {
    /// A body's expression. Its one refusal is a count of owners that is full.
    pub(crate) fn of(body: &Body) -> Result<Source, NoMemory>
        ensures { IfOk result (λ s. s ≡ body.now) }
    {
        Ok(Source {
            place: Place::Body(body.copy()?),
        })
    }

    /// The expression at a place of a list. Its one refusal is a count of owners that is full.
    pub(crate) fn at(list: &Exprs, at: usize) -> Result<Source, NoMemory>
        requires { at < length list.now }
        ensures { IfOk result (λ s. slice_get list.now at ≡ Some s) }
    {
        let place = Place::Item(list.copy()?, at);
        Ok(Source { place })
    }

    /// An expression that stands nowhere yet.
    pub(crate) fn made(alloc: Global, expr: Expr) -> Result<Source, NoMemory>
        ensures { IfOk result (λ s. s ≡ expr) }
    {
        Ok(Source {
            place: Place::Body(Shared::new(alloc, expr)?),
        })
    }

    /// The expression, lent.
    pub(crate) fn get(&self) -> &Expr
        ensures { result.now ≡ self.now }
    {
        match &self.place {
            Place::Body(body) => body.get(),
            Place::Item(list, at) => &list.as_slice()[*at],
        }
    }

    /// An equal expression. Its one refusal is a count of owners that is full.
    pub(crate) fn copy(&self) -> Result<Source, NoMemory>
        ensures { IfOk result (λ s. s ≡ self.now) }
    {
        let place = match &self.place {
            Place::Body(body) => Place::Body(body.copy()?),
            Place::Item(list, at) => Place::Item(list.copy()?, *at),
        };
        Ok(Source { place })
    }
}
