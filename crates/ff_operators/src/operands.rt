//! Readers of operands: one for each list of kinds that a pure operator takes. Texts are lent.

ghost use Rattle.std.specs.Prelude.{◌≡◌};
ghost use Rattle.std.specs.Option.{option_copied};
ghost use Rattle.ff_operators.specs.Operands as operands;
ghost use Rattle.ff_operators.specs.Lent.{texts_lent, text_num_lent, text_nums_lent};

use ff_value::{Text, Val};

/// The one operand, where it is a truth value.
pub fn one_bool(args: &[Val]) -> Option<bool>
    ensures { result ≡ operands.one_bool args.now }
{
    match args {
        [Val::Bool(a)] => Some(*a),
        _ => None,
    }
}

/// The one operand, where it is a number.
pub fn one_num(args: &[Val]) -> Option<i64>
    ensures { result ≡ operands.one_num args.now }
{
    match args {
        [Val::Num(a)] => Some(*a),
        _ => None,
    }
}

/// Two numbers.
pub fn two_nums(args: &[Val]) -> Option<(i64, i64)>
    ensures { result ≡ operands.two_nums args.now }
{
    match args {
        [Val::Num(a), Val::Num(b)] => Some((*a, *b)),
        _ => None,
    }
}

/// The one operand, where it is a text.
pub fn one_str(args: &[Val]) -> Option<&Text>
    ensures { option_copied result ≡ operands.one_str args.now }
{
    match args {
        [Val::Str(a)] => Some(a),
        _ => None,
    }
}

/// Two texts.
pub fn two_strs(args: &[Val]) -> Option<(&Text, &Text)>
    ensures { texts_lent result ≡ operands.two_strs args.now }
{
    match args {
        [Val::Str(a), Val::Str(b)] => Some((a, b)),
        _ => None,
    }
}

/// A text and a number.
pub fn str_num(args: &[Val]) -> Option<(&Text, i64)>
    ensures { text_num_lent result ≡ operands.str_num args.now }
{
    match args {
        [Val::Str(a), Val::Num(b)] => Some((a, *b)),
        _ => None,
    }
}

/// A text and two numbers.
pub fn str_nums(args: &[Val]) -> Option<(&Text, i64, i64)>
    ensures { text_nums_lent result ≡ operands.str_nums args.now }
{
    match args {
        [Val::Str(a), Val::Num(b), Val::Num(c)] => Some((a, *b, *c)),
        _ => None,
    }
}
