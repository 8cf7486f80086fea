ghost use Rattle.std.specs.Prelude.{◌≡◌, ◌<◌, List, None, IfOk, OnOk, length};
ghost use Rattle.ff_tree.specs.declared.tree.Expr.{out-Expr};
ghost use Rattle.ff_value.specs.declared.ids.ActId.{ActId};
ghost use Rattle.ff_value.specs.declared.value.Val.{Val as Value};
ghost use Rattle.ff_term.specs.Running.{Done};
ghost use Rattle.ff_term.specs.Rows.{IsLocal, branch, local_row};
ghost use Rattle.ff_term.specs.Whole.{layer};
ghost use Rattle.ff_frames.specs.Frames.{around};
ghost use Rattle.ff_frames.specs.Heads.{held};
ghost use Rattle.ff_frames.specs.Seeking.{IsHeld, IsRow};
ghost use Rattle.ff_frames.specs.Rewrites.{IsBegun, IsEnding, IsIf, IsPutOn, IsRest, IsTurned, test_of};

use crate::frame::Head;
use crate::hand::Hand;
use crate::source::Source;
use ff_tree::{Expr, Exprs};
use ff_value::{NoMemory, Val};

/// Puts what stands for a form that is a redex which no store decides: the test of the `if` that it
/// becomes, or else `null`. Nothing is at hand before.
pub(crate) fn put_form(form: Source, heads: &mut Vec<Head>, hand: &mut Hand) -> Result<(), NoMemory>
    requires row { IsRow (out-Expr form) }
    requires local { IsLocal (layer (out-Expr form)) }
    requires free { hand.old.form ≡ None }
    ensures { OnOk result (IsPutOn (λ a. local_row (layer (out-Expr form))) heads.old.items
        hand.old.values.items heads.new.items hand.new) }
{
    let held = hold_test(hand, form.get())?;
    if held {
        heads.push(Head::Part(form, 0))?;
        Ok(())
    } else {
        hand.hold_value(Val::Null)
    }
}

/// Puts the test of a form that becomes an `if` at hand; answers whether it is one.
fn hold_test(hand: &mut Hand, form: &Expr) -> Result<bool, NoMemory>
    requires { hand.old.form ≡ None }
    ensures { IfOk result (λ there. IsHeld (test_of (out-Expr form.now)) hand.old there hand.new) }
{
    match form {
        Expr::While(test, _) | Expr::And(test, _) | Expr::Or(test, _) => {
            hand.hold_body(test)?;
            Ok(true)
        }
        _ => Ok(false),
    }
}

/// Puts the next part of a `do` or of a loop at hand for the value there, with its frame; answers
/// whether there is one. If not, nothing changes.
pub(crate) fn turn(head: &mut Head, hand: &mut Hand) -> Result<bool, NoMemory>
    requires ending { IsEnding head.old }
    requires free { hand.old.form ≡ None }
    requires value { held head.old < length hand.old.values.items }
    ensures { IfOk result (λ on. IsTurned head.old hand.old on head.new hand.new) }
{
    match head {
        Head::Do(parts, at) => {
            if *at < parts.len() {
                hand.next_item(1, parts, *at)?;
                *at += 1;
                Ok(true)
            } else {
                Ok(false)
            }
        }
        Head::Part(_, _) => turn_form(head, hand),
        Head::Loop(again) => {
            hand.next_copy(again)?;
            *head = Head::Last;
            Ok(true)
        }
        Head::Last | Head::Inside(_) => Ok(false),
    }
}

/// The same of a form.
fn turn_form(head: &mut Head, hand: &mut Hand) -> Result<bool, NoMemory>
    requires begun { IsBegun head.old }
    requires free { hand.old.form ≡ None }
    requires value { held head.old < length hand.old.values.items }
    ensures { IfOk result (λ on. IsTurned head.old hand.old on head.new hand.new) }
{
    match head {
        Head::Part(form, held) => match form.get() {
            Expr::Do(parts) => {
                if 1 < parts.len() {
                    hand.next_item(*held + 1, parts, 1)?;
                    *head = rest_of(parts, 1)?;
                    Ok(true)
                } else {
                    Ok(false)
                }
            }
            _ => Ok(false),
        },
        _ => unreachable!(),
    }
}

/// The frame of a `do` around its part at a place.
fn rest_of(parts: &Exprs, at: usize) -> Result<Head, NoMemory>
    requires { at < length parts.now }
    ensures { IfOk result (IsRest parts.now at) }
{
    let len = parts.len();
    if at + 1 < len {
        Ok(Head::Do(parts.copy()?, at + 1))
    } else {
        Ok(Head::Last)
    }
}

/// Puts the branch of an `if`, or of a form that becomes one, whose test is evaluated.
pub(crate) fn put_branch(
    form: Source,
    yes: bool,
    heads: &mut Vec<Head>,
    hand: &mut Hand,
) -> Result<(), NoMemory>
    requires test { IsIf (out-Expr form) }
    requires free { hand.old.form ≡ None }
    ensures { OnOk result ((vs : List Value) (v : Value)
        → IsPutOn (λ a. branch yes (around (out-Expr form) vs (Done v))) heads.old.items
        hand.old.values.items heads.new.items hand.new) }
{
    match form.get() {
        Expr::If(_, left, right) => hand.hold_body(if yes { left } else { right }),
        Expr::While(_, body) => {
            if yes {
                hand.hold_body(body)?;
                heads.push(Head::Loop(form))?;
                Ok(())
            } else {
                hand.hold_value(Val::Null)
            }
        }
        Expr::And(_, right) => {
            if yes {
                hand.hold_body(right)
            } else {
                hand.hold_value(Val::Bool(false))
            }
        }
        Expr::Or(_, right) => {
            if yes {
                hand.hold_value(Val::Bool(true))
            } else {
                hand.hold_body(right)
            }
        }
        _ => unreachable!(),
    }
}
