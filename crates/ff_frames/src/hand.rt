ghost use Rattle.std.specs.Prelude.{◌≡◌, ◌+◌, ◌<◌, ◌≤◌, ◌++◌, ◌∷◌, [], List, Some, None, IfOk, OnOk, length, slice_get};
ghost use Rattle.std.specs.Option.{option_copied};
ghost use Rattle.ff_tree.specs.declared.tree.Expr.{Expr, out-Expr};
ghost use Rattle.ff_value.specs.declared.value.Val.{Val as Value};
ghost use Rattle.ff_value.specs.declared.value.Val.TheVariants as val;
ghost use Rattle.ff_term.specs.Whole.{literal as the_literal};
ghost use Rattle.ff_frames.specs.declared.frame.Focus.{Focus};
ghost use Rattle.ff_frames.specs.declared.frame.Focus.TheVariants as focus;
ghost use Rattle.ff_tree.specs.declared.tree.Doc.TheOpen.{Expr-F};
ghost use Rattle.ff_frames.specs.Frames.{operands};
ghost use Rattle.ff_frames.specs.Heads.{IsHolding, held, value_of};
ghost use Rattle.ff_frames.specs.Seeking.{IsHeld, IsHeldFor, Shows};

use crate::frame::{Focus, Head};
use crate::operand::literal;
use crate::source::Source;
use ff_tree::{Body, Expr, Exprs, Lit};
use ff_value::{NoMemory, Val};
use std::alloc::Global;

/// The values of all frames, those of the outermost first, and behind them the part at hand: a
/// form, or else the last value.
#[derive(Drop)]
pub(crate) struct Hand {
    pub(crate) values: Vec<Val>,
    pub(crate) form: Option<Source>,
    /// What is at hand where there is neither a form nor a value: `null`.
    pub(crate) null: Val,
}

impl Hand {
    /// No values, and nothing at hand.
    pub(crate) fn new(alloc: Global) -> Hand
        ensures values { result.values.items ≡ [] }
        ensures form { result.form ≡ None }
        ensures null { result.null ≡ val.Null }
    {
        Hand {
            values: Vec::new(alloc),
            form: None,
            null: Val::Null,
        }
    }

    /// An equal hand.
    pub(crate) fn copied(&self, alloc: Global) -> Result<Hand, NoMemory>
        ensures values { IfOk result (λ h. h.values.items ≡ self.now.values.items) }
        ensures form { IfOk result (λ h. h.form ≡ self.now.form) }
        ensures null { IfOk result (λ h. h.null ≡ val.Null) }
    {
        let mut values = Vec::new(alloc);
        for value in &self.values {
            values.push(value.copy()?)?;
        }
        let form = match &self.form {
            Some(form) => Some(form.copy()?),
            None => None,
        };
        Ok(Hand {
            values,
            form,
            null: Val::Null,
        })
    }

    /// Takes the form out of the hand, if one is there.
    pub(crate) fn take_form(&mut self) -> Option<Source>
        ensures form { result ≡ self.old.form }
        ensures rest { self.new ≡ record self.old { form = None } }
    {
        self.form.take()
    }

    /// The value at hand, if it is one.
    pub(crate) fn value(&self) -> Option<&Val>
        ensures { option_copied result ≡ value_of self.now.form self.now.null
            self.now.values.items }
    {
        match &self.form {
            Some(_) => None,
            None => match self.values.last() {
                Some(value) => Some(value),
                None => Some(&self.null),
            },
        }
    }

    /// The values of the innermost frame, and behind them the one at hand.
    pub(crate) fn operands(&self, head: &Head) -> &[Val]
        requires { held head.now < length self.now.values.items }
        ensures { (kept all : List Value) → self.now.values.items ≡ kept ++ all
            → length all ≡ held head.now + 1 → result.now ≡ all }
    {
        let kept = self.values.len() - held_by(head) - 1;
        &self.values.as_slice()[kept..]
    }

    /// Drops the last values.
    fn drop_last(&mut self, count: usize)
        requires { count ≤ length self.old.values.items }
        ensures left { (kept last : List Value) → self.old.values.items ≡ kept ++ last
            → length last ≡ count → self.new.values.items ≡ kept }
        ensures form { self.new.form ≡ self.old.form }
    {
        let kept = self.values.len() - count;
        self.values.truncate(kept);
    }

    /// Drops the value at hand, and those of a frame that is taken off.
    pub(crate) fn drop_values(&mut self, head: &Head)
        requires { held head.now < length self.old.values.items }
        ensures left { (kept all : List Value) → self.old.values.items ≡ kept ++ all
            → length all ≡ held head.now + 1 → self.new.values.items ≡ kept }
        ensures form { self.new.form ≡ self.old.form }
    {
        self.drop_last(held_by(head) + 1);
    }

    /// Puts a part at hand.
    pub(crate) fn hold(&mut self, part: Focus) -> Result<(), NoMemory>
        requires { self.old.form ≡ None }
        ensures { OnOk result (IsHolding self.old.values.items part self.new) }
    {
        match part {
            Focus::Value(value) => self.values.push(value)?,
            Focus::Part(form) => self.form = Some(form),
        }
        Ok(())
    }

    /// Puts a value at hand.
    pub(crate) fn hold_value(&mut self, value: Val) -> Result<(), NoMemory>
        requires { self.old.form ≡ None }
        ensures { OnOk result (IsHolding self.old.values.items (focus.Value value) self.new) }
    {
        self.values.push(value)?;
        Ok(())
    }

    /// Puts a copy of a value at hand.
    pub(crate) fn hold_copy(&mut self, value: &Val) -> Result<(), NoMemory>
        requires { self.old.form ≡ None }
        ensures { OnOk result (IsHolding self.old.values.items (focus.Value value.now) self.new) }
    {
        self.values.push(value.copy()?)?;
        Ok(())
    }

    /// Puts the value of a literal at hand.
    fn hold_literal(&mut self, lit: &Lit) -> Result<(), NoMemory>
        requires { self.old.form ≡ None }
        ensures { OnOk result (IsHolding self.old.values.items (focus.Value (the_literal lit.now))
            self.new) }
    {
        self.values.push(literal(lit)?)?;
        Ok(())
    }

    /// Puts an expression at hand.
    pub(crate) fn hold_source(&mut self, expr: Source) -> Result<(), NoMemory>
        requires { self.old.form ≡ None }
        ensures { OnOk result ((x : Focus) × Shows expr x
            × IsHolding self.old.values.items x self.new) }
    {
        match expr.get() {
            Expr::Lit(lit) => self.hold_literal(lit)?,
            _ => self.form = Some(expr),
        }
        Ok(())
    }

    /// Puts a body at hand.
    pub(crate) fn hold_body(&mut self, body: &Body) -> Result<(), NoMemory>
        requires { self.old.form ≡ None }
        ensures { OnOk result ((x : Focus) × Shows body.now x
            × IsHolding self.old.values.items x self.new) }
    {
        match body.get() {
            Expr::Lit(lit) => self.hold_literal(lit)?,
            _ => self.form = Some(Source::of(body)?),
        }
        Ok(())
    }

    /// Puts the expression at a place of a list at hand; answers whether there is one.
    pub(crate) fn hold_item(&mut self, list: &Exprs, at: usize) -> Result<bool, NoMemory>
        requires { self.old.form ≡ None }
        ensures { IfOk result (λ there. IsHeld (slice_get list.now at) self.old there self.new) }
    {
        match list.get(at) {
            None => return Ok(false),
            Some(expr) => match expr {
                Expr::Lit(lit) => self.hold_literal(lit)?,
                _ => self.form = Some(Source::at(list, at)?),
            },
        }
        Ok(true)
    }

    /// Puts the expression at a place of a list at hand for some of the last values.
    pub(crate) fn next_item(
        &mut self,
        count: usize,
        list: &Exprs,
        at: usize,
    ) -> Result<(), NoMemory>
        requires free { self.old.form ≡ None }
        requires enough { count ≤ length self.old.values.items }
        requires within { at < length list.now }
        ensures { OnOk result ((e : Expr) × (slice_get list.now at ≡ Some e)
            × IsHeldFor count e self.old self.new) }
    {
        self.drop_last(count);
        self.hold_item(list, at)?;
        Ok(())
    }

    /// Puts a copy of an expression at hand for the last value.
    pub(crate) fn next_copy(&mut self, expr: &Source) -> Result<(), NoMemory>
        requires free { self.old.form ≡ None }
        requires enough { 1 ≤ length self.old.values.items }
        ensures { OnOk result (IsHeldFor 1 expr.now self.old self.new) }
    {
        self.drop_last(1);
        self.hold_source(expr.copy()?)
    }

    /// Puts the operand at a place at hand; answers whether there is one.
    pub(crate) fn hold_operand(&mut self, expr: &Expr, at: usize) -> Result<bool, NoMemory>
        requires { self.old.form ≡ None }
        ensures { IfOk result (λ there. IsHeld (slice_get (operands (out-Expr expr.now)) at)
            self.old there self.new) }
    {
        match expr {
            Expr::Prim(_, args) => self.hold_item(args, at),
            Expr::Let(_, part) | Expr::Set(_, part) | Expr::If(part, _, _) => {
                self.hold_only(part, at)
            }
            Expr::Do(parts) => self.hold_first(parts, at),
            Expr::Apply(function, args) => {
                if at == 0 {
                    self.hold_only(function, at)
                } else {
                    self.hold_item(args, at - 1)
                }
            }
            _ => Ok(false),
        }
    }

    /// The operand of a form that has one.
    fn hold_only(&mut self, part: &Body, at: usize) -> Result<bool, NoMemory>
        requires { self.old.form ≡ None }
        ensures { IfOk result (λ there. IsHeld (slice_get (part.now ∷ []) at) self.old there
            self.new) }
    {
        if at == 0 {
            self.hold_body(part)?;
            Ok(true)
        } else {
            Ok(false)
        }
    }

    /// The operand of a `do`.
    fn hold_first(&mut self, parts: &Exprs, at: usize) -> Result<bool, NoMemory>
        requires { self.old.form ≡ None }
        ensures { IfOk result (λ there. IsHeld (slice_get (operands (Expr-F.Do parts.now)) at)
            self.old there self.new) }
    {
        if at == 0 {
            self.hold_item(parts, at)
        } else {
            Ok(false)
        }
    }
}

/// How many values a frame holds.
fn held_by(head: &Head) -> usize
    ensures { result ≡ held head.now }
{
    match head {
        Head::Part(_, held) => *held,
        _ => 0,
    }
}
