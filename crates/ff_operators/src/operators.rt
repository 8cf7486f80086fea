ghost use Rattle.ff_operators.specs.Answers.{Gives};
ghost use Rattle.ff_operators.specs.Pure as pure;

use crate::answer::{Applied, Fail};
use crate::{arithmetic, comparisons, texts};
use ff_value::{Fault, Op, Val};
use std::alloc::Global;

/// What a pure operator gives for its operands and the mass, or its fault. Operands of other kinds
/// or in another number are a kind fault, and so are all operands of an operator that isn't pure.
/// Memory is taken for a made text alone.
pub fn apply(alloc: Global, op: Op, args: &[Val], mass: u64) -> Result<Applied, Fail>
    ensures { Gives (pure.apply op args.now mass) result }
{
    match op {
        Op::Add => arithmetic::add(args, mass),
        Op::Sub => arithmetic::sub(args, mass),
        Op::Mul => arithmetic::mul(args, mass),
        Op::Div => arithmetic::div(args, mass),
        Op::Rem => arithmetic::rem(args, mass),
        Op::Less => comparisons::less(args, mass),
        Op::AtMost => comparisons::at_most(args, mass),
        Op::Equal => comparisons::equal(args, mass),
        Op::Not => comparisons::not(args, mass),
        Op::Cat => texts::cat(alloc, args, mass),
        Op::Len => texts::len(args, mass),
        Op::Byte => texts::byte(args, mass),
        Op::Cut => texts::cut(alloc, args, mass),
        Op::Str => texts::str(alloc, args, mass),
        Op::Num => texts::num(args, mass),
        _ => Err(Fail::Fault(Fault::Kind)),
    }
}
