ghost use Rattle.std.specs.Prelude.{◌≡◌, ◌<◌, ◌++◌, ◌∷◌, [], List, None, length, slice_get};
ghost use Rattle.std.proofs.Common.{suc};
ghost use Rattle.ff_tree.specs.declared.tree.Expr.{out-Expr};
ghost use Rattle.ff_value.specs.declared.ids.ActId.{ActId};
ghost use Rattle.ff_value.specs.declared.value.Val.{Val as Value};
ghost use Rattle.ff_term.specs.Running.{Done};
ghost use Rattle.ff_term.specs.Whole.{layer};
ghost use Rattle.ff_term.specs.Redexes.{IsRedexOf};
ghost use Rattle.ff_frames.specs.Frames.{wrap, around, operands};
ghost use Rattle.ff_frames.specs.Heads.{with_values};
ghost use Rattle.ff_frames.specs.Lent.{named};
ghost use Rattle.ff_frames.specs.Seeking.{IsFull, IsRow};

use crate::frame::Head;
use ff_tree::Expr;
use ff_value::{Body, Doc, Name, Names, Op, Val};

/// The redex of a runtime expression, as far as the stores decide what it becomes. What it holds is
/// lent where it lies.
#[derive(Debug, Drop)]
pub enum Redex<'a> {
    /// No store decides: a `while`, `do`, `and` or `or`, or the end of a call.
    Local,
    /// An `if` with its test.
    Test(&'a Val),
    /// A variable to be read.
    Var(&'a Name),
    /// A variable to be declared, and its value.
    Let(&'a Name, &'a Val),
    /// A variable to be assigned, and its new value.
    Set(&'a Name, &'a Val),
    /// A function to be made, of its parameters and its body.
    Make(&'a Names, &'a Body),
    /// A function and its arguments.
    Apply(&'a Val, &'a [Val]),
    /// A document to be made into nodes.
    Tree(&'a Doc),
    /// An operator and its operands.
    Prim(Op, &'a [Val]),
}

/// The redex that an expression is as it stands.
pub(crate) fn read_form(form: &Expr) -> Redex<'_>
    requires { IsRow (out-Expr form.now) }
    ensures { IsRedexOf (named result) (layer (out-Expr form.now)) }
{
    match form {
        Expr::Var(name) => Redex::Var(name),
        Expr::Make(params, body) => Redex::Make(params, body),
        Expr::Tree(doc) => Redex::Tree(doc),
        Expr::Prim(op, _) => Redex::Prim(*op, &[]),
        _ => Redex::Local,
    }
}

/// The redex that the values of a frame and the last one complete with it.
pub(crate) fn read_frame<'a>(head: &'a Head, values: &'a [Val]) -> Redex<'a>
    requires { 0 < length values.now }
    ensures { (vs : List Value) (v : Value) → values.now ≡ vs ++ v ∷ []
        → IsFull (with_values head.now vs) → (a : ActId)
        → IsRedexOf (named result) (wrap (with_values head.now vs) a (Done v)) }
{
    match head {
        Head::Part(form, _) => read_part(form.get(), values),
        _ => Redex::Local,
    }
}

/// The same of a form.
fn read_part<'a>(form: &'a Expr, values: &'a [Val]) -> Redex<'a>
    requires { 0 < length values.now }
    ensures { (vs : List Value) (v : Value) → values.now ≡ vs ++ v ∷ []
        → slice_get (operands (out-Expr form.now)) (suc (length vs)) ≡ None
        → IsRedexOf (named result) (around (out-Expr form.now) vs (Done v)) }
{
    match form {
        Expr::Prim(op, _) => Redex::Prim(*op, values),
        Expr::Let(name, _) => Redex::Let(name, last(values)),
        Expr::Set(name, _) => Redex::Set(name, last(values)),
        Expr::If(_, _, _) | Expr::While(_, _) | Expr::And(_, _) | Expr::Or(_, _) => {
            Redex::Test(last(values))
        }
        Expr::Apply(_, _) => match values.split_first() {
            None => unreachable!(),
            Some((function, args)) => Redex::Apply(function, args),
        },
        _ => Redex::Local,
    }
}

/// The last value.
fn last(values: &[Val]) -> &Val
    requires { 0 < length values.now }
    ensures { (vs : List Value) (v : Value) → values.now ≡ vs ++ v ∷ [] → result.now ≡ v }
{
    &values[values.len() - 1]
}
