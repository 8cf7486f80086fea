ghost use Rattle.std.specs.List.{AllByRecursion};
ghost use Rattle.std.specs.Prelude.{◌≡◌, ◌<◌, IfOk, OnOk, None, length};
ghost use Rattle.ff_tree.specs.declared.tree.Expr.{out-Expr};
ghost use Rattle.ff_frames.specs.declared.frame.Focus.TheVariants as focus;
ghost use Rattle.ff_frames.specs.Frames.{shown};
ghost use Rattle.ff_frames.specs.Heads.{IsEmptyHanded, IsFit, IsLaid, at_hand, frames, held};
ghost use Rattle.ff_frames.specs.Seeking.{IsFed, IsOpen, IsSettled, IsStep, IsThere};

use crate::frame::Head;
use crate::hand::Hand;
use crate::source::Source;
use ff_value::NoMemory;

/// Goes on to the operand after the one whose value is at hand, which is then one of the frame's;
/// answers whether there is one. If not, nothing changes.
fn fed(head: &mut Head, hand: &mut Hand) -> Result<bool, NoMemory>
    requires form { hand.old.form ≡ None }
    requires value { held head.old < length hand.old.values.items }
    ensures { IfOk result (λ on. IsFed head.old hand.old on head.new hand.new) }
{
    match head {
        Head::Part(form, held) => {
            let on = hand.hold_operand(form.get(), *held + 1)?;
            if on {
                *held += 1;
            }
            Ok(on)
        }
        _ => Ok(false),
    }
}

/// Goes down to the first operand of a form, in a frame of the form; answers whether there is one.
/// If not, the form is at hand.
fn opened(heads: &mut Vec<Head>, hand: &mut Hand, form: Source) -> Result<bool, NoMemory>
    requires empty { IsEmptyHanded heads.old.items hand.old }
    requires fit { AllByRecursion IsFit heads.old.items }
    requires open { IsOpen (out-Expr form) }
    ensures fit { IfOk result (λ _. AllByRecursion IsFit heads.new.items) }
    ensures laid { IfOk result (λ _. IsLaid heads.new.items hand.new) }
    ensures step { IfOk result (λ on. IsStep (frames heads.old.items hand.old) (focus.Part form) on
        (frames heads.new.items hand.new) (at_hand heads.new.items hand.new)) }
{
    let on = hand.hold_operand(form.get(), 0)?;
    if on {
        heads.push(Head::Part(form, 0))?;
    } else {
        hand.form = Some(form);
    }
    Ok(on)
}

/// One step towards the redex; answers whether one was left to make.
fn step(heads: &mut Vec<Head>, hand: &mut Hand) -> Result<bool, NoMemory>
    requires laid { IsLaid heads.old.items hand.old }
    requires fit { AllByRecursion IsFit heads.old.items }
    requires settled { IsSettled (at_hand heads.old.items hand.old) }
    ensures fit { IfOk result (λ _. AllByRecursion IsFit heads.new.items) }
    ensures laid { IfOk result (λ _. IsLaid heads.new.items hand.new) }
    ensures step { IfOk result (λ on. IsStep (frames heads.old.items hand.old)
        (at_hand heads.old.items hand.old) on (frames heads.new.items hand.new)
        (at_hand heads.new.items hand.new)) }
{
    match hand.take_form() {
        Some(form) => opened(heads, hand, form),
        None => match heads.last_mut() {
            None => Ok(false),
            Some(head) => fed(head, hand),
        },
    }
}

/// Walks from the part at hand to the redex.
pub(crate) fn seek(heads: &mut Vec<Head>, hand: &mut Hand) -> Result<(), NoMemory>
    requires laid { IsLaid heads.old.items hand.old }
    requires fit { AllByRecursion IsFit heads.old.items }
    requires settled { IsSettled (at_hand heads.old.items hand.old) }
    ensures fit { OnOk result (AllByRecursion IsFit heads.new.items) }
    ensures laid { OnOk result (IsLaid heads.new.items hand.new) }
    ensures there { OnOk result (IsThere (frames heads.old.items hand.old)
        (shown (at_hand heads.old.items hand.old)) (frames heads.new.items hand.new)
        (at_hand heads.new.items hand.new)) }
{
    loop {
        if !step(heads, hand)? {
            return Ok(());
        }
    }
}
