ghost use Rattle.std.specs.Prelude.{ℤ, FitsSigned, int_rem};
ghost use Rattle.std.specs.Int.{w64};
ghost use Rattle.std.specs.Option.{SomeIff};
ghost use Rattle.ff_operators.specs.Answers.{Gives};
ghost use Rattle.ff_operators.specs.Pure as pure;
ghost use Rattle.ff_tree.specs.declared.op.Op.TheVariants as op;

use crate::answer::{Applied, Fail};
use crate::operands::two_nums;
use ff_value::{Fault, Val};

/// The sum.
pub(crate) fn add(args: &[Val], mass: u64) -> Result<Applied, Fail>
    ensures { Gives (pure.apply op.Add args.now mass) result }
{
    match two_nums(args) {
        Some((a, b)) => number(a.checked_add(b), mass),
        None => Err(Fail::Fault(Fault::Kind)),
    }
}

/// The difference.
pub(crate) fn sub(args: &[Val], mass: u64) -> Result<Applied, Fail>
    ensures { Gives (pure.apply op.Sub args.now mass) result }
{
    match two_nums(args) {
        Some((a, b)) => number(a.checked_sub(b), mass),
        None => Err(Fail::Fault(Fault::Kind)),
    }
}

/// The product.
pub(crate) fn mul(args: &[Val], mass: u64) -> Result<Applied, Fail>
    ensures { Gives (pure.apply op.Mul args.now mass) result }
{
    match two_nums(args) {
        Some((a, b)) => number(a.checked_mul(b), mass),
        None => Err(Fail::Fault(Fault::Kind)),
    }
}

/// The quotient, rounded toward zero.
pub(crate) fn div(args: &[Val], mass: u64) -> Result<Applied, Fail>
    ensures { Gives (pure.apply op.Div args.now mass) result }
{
    match two_nums(args) {
        Some((_, 0)) => Err(Fail::Fault(Fault::Range)),
        Some((a, b)) => number(a.checked_div(b), mass),
        None => Err(Fail::Fault(Fault::Kind)),
    }
}

/// The remainder of the division.
pub(crate) fn rem(args: &[Val], mass: u64) -> Result<Applied, Fail>
    ensures { Gives (pure.apply op.Rem args.now mass) result }
{
    match two_nums(args) {
        Some((a, b)) => remainder(a, b, mass),
        None => Err(Fail::Fault(Fault::Kind)),
    }
}

/// The remainder, which is refused where the quotient is.
fn remainder(a: i64, b: i64, mass: u64) -> Result<Applied, Fail>
    ensures { Gives (pure.divided mass a b (int_rem a b)) result }
{
    if b == 0 {
        return Err(Fail::Fault(Fault::Range));
    }
    match a.checked_rem(b) {
        Some(n) => Ok(Applied::free(Val::Num(n), mass)),
        None => Err(Fail::Fault(Fault::Overflow)),
    }
}

/// The number, which is `None` where 64 bits don't hold it.
pub(crate) fn number(n: Option<i64>, mass: u64) -> Result<Applied, Fail>
    ensures { (z : ℤ) → SomeIff n (FitsSigned w64 z) z
        → Gives (pure.num_or_overflow mass z) result }
{
    match n {
        Some(n) => Ok(Applied::free(Val::Num(n), mass)),
        None => Err(Fail::Fault(Fault::Overflow)),
    }
}
