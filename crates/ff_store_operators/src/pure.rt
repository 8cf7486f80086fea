//! The pure operators, and texts that are made: the mass grows by them.
ghost use Rattle.std.specs.Prelude.{◌≡◌, List};
ghost use Rattle.std.specs.Str.{IsUtf8};
ghost use Rattle.ff_value.specs.declared.output.Out.{Out};
ghost use Rattle.ff_operators.specs.Pure as pure;
ghost use Rattle.ff_machine.specs.Answers.{Does};
ghost use Rattle.ff_machine.specs.Operators as operators;

use ff_name::Text;
use ff_operators::{Fail, MOST_MADE_BYTES, apply};
use ff_stores::Stores;
use ff_value::{Fault, Op, Val};
use std::alloc::Global;

/// A pure operator. All operands of an operator that isn't pure are a kind fault here.
pub(crate) fn pure(alloc: Global, stores: &mut Stores, op: Op, args: &[Val]) -> Result<Val, Fail>
    ensures { (puts : List Out) → Does (operators.with_mass stores.old
        (pure.apply op args.now stores.old.mass)) result stores.old stores.new puts puts }
{
    let applied = apply(alloc, op, args, stores.mass())?;
    stores.set_mass(applied.mass);
    Ok(applied.value)
}

/// A text that is made of bytes, where there is room for it.
pub(crate) fn make_text(alloc: Global, stores: &mut Stores, bytes: &[u8]) -> Result<Val, Fail>
    requires { IsUtf8 bytes.now }
    ensures { (puts : List Out) → Does (operators.with_mass stores.old
        (pure.made stores.old.mass bytes.now)) result stores.old stores.new puts puts }
{
    if bytes.len() > MOST_MADE_BYTES || !stores.may_weigh(bytes.len() as u64) {
        return Err(Fail::Fault(Fault::Limit));
    }
    let text = Text::of_utf8(alloc, bytes)?;
    let mass = stores.mass() + bytes.len() as u64;
    stores.set_mass(mass);
    Ok(Val::Str(text))
}
