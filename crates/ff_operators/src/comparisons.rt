ghost use Rattle.std.specs.Prelude.{◌≡◌};
ghost use Rattle.ff_operators.specs.Answers.{Gives};
ghost use Rattle.ff_operators.specs.Pure as pure;
ghost use Rattle.ff_tree.specs.declared.op.Op.TheVariants as op;

use crate::answer::{Applied, Fail};
use crate::operands::one_bool;
use ff_value::{Fault, Val};

/// Whether the first number or text is before the second; texts are in the order of their bytes.
pub(crate) fn less(args: &[Val], mass: u64) -> Result<Applied, Fail>
    ensures { Gives (pure.apply op.Less args.now mass) result }
{
    match args {
        [Val::Num(a), Val::Num(b)] => Ok(Applied::free(Val::Bool(*a < *b), mass)),
        [Val::Str(a), Val::Str(b)] => Ok(Applied::free(Val::Bool(*a < *b), mass)),
        _ => Err(Fail::Fault(Fault::Kind)),
    }
}

/// Whether the second number or text isn't before the first.
pub(crate) fn at_most(args: &[Val], mass: u64) -> Result<Applied, Fail>
    ensures { Gives (pure.apply op.AtMost args.now mass) result }
{
    match args {
        [Val::Num(a), Val::Num(b)] => Ok(Applied::free(Val::Bool(*a <= *b), mass)),
        [Val::Str(a), Val::Str(b)] => Ok(Applied::free(Val::Bool(*a <= *b), mass)),
        _ => Err(Fail::Fault(Fault::Kind)),
    }
}

/// Whether two values that are no functions are equal.
pub(crate) fn equal(args: &[Val], mass: u64) -> Result<Applied, Fail>
    ensures { Gives (pure.apply op.Equal args.now mass) result }
{
    match args {
        [Val::Code(..), _] | [_, Val::Code(..)] => Err(Fail::Fault(Fault::Kind)),
        [a, b] => Ok(Applied::free(Val::Bool(*a == *b), mass)),
        _ => Err(Fail::Fault(Fault::Kind)),
    }
}

/// The other truth value.
pub(crate) fn not(args: &[Val], mass: u64) -> Result<Applied, Fail>
    ensures { Gives (pure.apply op.Not args.now mass) result }
{
    match one_bool(args) {
        Some(a) => Ok(Applied::free(Val::Bool(!a), mass)),
        None => Err(Fail::Fault(Fault::Kind)),
    }
}
