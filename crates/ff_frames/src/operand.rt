ghost use Rattle.std.specs.Prelude.{◌≡◌, IfOk};
ghost use Rattle.ff_term.specs.Whole.{literal as the_literal};
ghost use Rattle.ff_frames.specs.Seeking.{Shows};

use crate::frame::Focus;
use crate::source::Source;
use ff_tree::{Body, Expr, Lit};
use ff_value::{NoMemory, Val};

/// The value of a literal.
pub(crate) fn literal(lit: &Lit) -> Result<Val, NoMemory>
    ensures { IfOk result (λ v. v ≡ the_literal lit.now) }
{
    match lit {
        Lit::Null => Ok(Val::Null),
        Lit::Bool(b) => Ok(Val::Bool(*b)),
        Lit::Num(n) => Ok(Val::Num(*n)),
        Lit::Str(text) => Ok(Val::Str(text.copy()?)),
    }
}

/// A body as the part at hand. Its one refusal is a count of owners that is full.
pub(crate) fn focus_on_body(body: &Body) -> Result<Focus, NoMemory>
    ensures { IfOk result (Shows body.now) }
{
    match body.get() {
        Expr::Lit(lit) => Ok(Focus::Value(literal(lit)?)),
        _ => Ok(Focus::Part(Source::of(body)?)),
    }
}
