ghost use Rattle.std.specs.Prelude.{◌≡◌, ◌++◌, nat_abs, IsTrue, IfSome};
ghost use Rattle.std.specs.Str.{IsUtf8};
ghost use Rattle.std.specs.Option.{option_copied, SomeIff};
ghost use Rattle.ff_operators.specs.Answers.{Gives};
ghost use Rattle.ff_operators.specs.Pure as pure;
ghost use Rattle.ff_tree.specs.declared.op.Op.TheVariants as op;

use crate::answer::{Applied, Fail};
use crate::arithmetic::number;
use crate::limits::{MOST_MADE_BYTES, MOST_MASS};
use crate::operands::{one_num, one_str, str_num, str_nums, two_strs};
use ff_number::{Digits, read_num};
use ff_value::{Fault, Text, Val};
use std::alloc::Global;

/// The two texts joined.
pub(crate) fn cat(alloc: Global, args: &[Val], mass: u64) -> Result<Applied, Fail>
    ensures { Gives (pure.apply op.Cat args.now mass) result }
{
    match two_strs(args) {
        Some((a, b)) => joined(alloc, a, b, mass),
        None => Err(Fail::Fault(Fault::Kind)),
    }
}

fn joined(alloc: Global, a: &Text, b: &Text, mass: u64) -> Result<Applied, Fail>
    ensures { Gives (pure.made mass (a.now ++ b.now)) result }
{
    let front = a.as_bytes();
    let back = b.as_bytes();
    if !has_room(mass, front.len() + back.len()) {
        return Err(Fail::Fault(Fault::Limit));
    }
    let mut bytes = Vec::with_capacity(alloc, front.len() + back.len())?;
    bytes.extend_from_slice(front)?;
    bytes.extend_from_slice(back)?;
    made(alloc, &bytes, mass)
}

/// How many bytes the text has.
pub(crate) fn len(args: &[Val], mass: u64) -> Result<Applied, Fail>
    ensures { Gives (pure.apply op.Len args.now mass) result }
{
    match one_str(args) {
        Some(a) => number(i64::try_from(a.as_bytes().len()).ok(), mass),
        None => Err(Fail::Fault(Fault::Kind)),
    }
}

/// The byte at a place.
pub(crate) fn byte(args: &[Val], mass: u64) -> Result<Applied, Fail>
    ensures { Gives (pure.apply op.Byte args.now mass) result }
{
    match str_num(args) {
        Some((a, at)) => match byte_at(a.as_bytes(), at) {
            Some(b) => Ok(Applied::free(Val::Num(i64::from(b)), mass)),
            None => Err(Fail::Fault(Fault::Range)),
        },
        None => Err(Fail::Fault(Fault::Kind)),
    }
}

fn byte_at(text: &[u8], at: i64) -> Option<u8>
    ensures { result ≡ pure.byte_at text.now at }
{
    let at = usize::try_from(at).ok()?;
    text.get(at).copied()
}

/// The bytes from the first place to before the second.
pub(crate) fn cut(alloc: Global, args: &[Val], mass: u64) -> Result<Applied, Fail>
    ensures { Gives (pure.apply op.Cut args.now mass) result }
{
    match str_nums(args) {
        Some((a, from, to)) => match part_of(a.as_bytes(), from, to) {
            Some(part) => made(alloc, part, mass),
            None => Err(Fail::Fault(Fault::Range)),
        },
        None => Err(Fail::Fault(Fault::Kind)),
    }
}

/// The part of a text from the first place to before the second, or `None` where these aren't
/// places in order.
fn part_of(text: &[u8], from: i64, to: i64) -> Option<&[u8]>
    requires { IsUtf8 text.now }
    ensures value { option_copied result ≡ pure.part_of text.now from to }
    ensures utf8 { IfSome result (λ part. IsUtf8 part.now) }
{
    let from = place_of(text, from)?;
    let to = place_of(text, to)?;
    if from <= to {
        Some(&text[from..to])
    } else {
        None
    }
}

/// The place that the number is, in the text or its end. `None` where it is none or a character
/// goes over it.
fn place_of(text: &[u8], at: i64) -> Option<usize>
    ensures { SomeIff result (IsTrue (pure.is_place text.now at)) (nat_abs at) }
{
    let at = usize::try_from(at).ok()?;
    match text.get(at) {
        Some(128..=191) => None,
        Some(_) => Some(at),
        None if at == text.len() => Some(at),
        None => None,
    }
}

/// The number as it is spelled.
pub(crate) fn str(alloc: Global, args: &[Val], mass: u64) -> Result<Applied, Fail>
    ensures { Gives (pure.apply op.Str args.now mass) result }
{
    match one_num(args) {
        Some(n) => made(alloc, Digits::of_num(n).as_slice(), mass),
        None => Err(Fail::Fault(Fault::Kind)),
    }
}

/// The number that the text spells, or `null`.
pub(crate) fn num(args: &[Val], mass: u64) -> Result<Applied, Fail>
    ensures { Gives (pure.apply op.Num args.now mass) result }
{
    match one_str(args) {
        Some(a) => Ok(Applied::free(read_num(a.as_bytes()).map_or(Val::Null, Val::Num), mass)),
        None => Err(Fail::Fault(Fault::Kind)),
    }
}

/// A text that was made, which counts. It is refused where there is no room for it.
fn made(alloc: Global, bytes: &[u8], mass: u64) -> Result<Applied, Fail>
    requires { IsUtf8 bytes.now }
    ensures { Gives (pure.made mass bytes.now) result }
{
    if !has_room(mass, bytes.len()) {
        return Err(Fail::Fault(Fault::Limit));
    }
    let text = Text::of_utf8(alloc, bytes)?;
    Ok(Applied {
        value: Val::Str(text),
        mass: mass + bytes.len() as u64,
    })
}

/// Whether a text of that many bytes isn't too long, and the mass stays within its limit with it.
fn has_room(mass: u64, bytes: usize) -> bool
    ensures { result ≡ pure.has_room mass bytes }
{
    bytes <= MOST_MADE_BYTES && mass <= MOST_MASS - bytes as u64
}
