ghost use Rattle.std.specs.Prelude.{◌≡◌, IsTrue};
ghost use Rattle.std.specs.Str.{bytes_eq};
ghost use Rattle.ff_forms.specs.Words as words;
ghost use Rattle.ff_forms.specs.Grammar as grammar;
ghost use Rattle.ff_forms.specs.Grammar.{Gives, word_as, word_as_expression, number_as, a_name, a_variable, an_address};

use ff_forms::SyntaxFault;
use ff_number::read_num;
use ff_value::{Expr, Lit, Name, Url, UrlFault};
use std::alloc::Global;

/// The name that a word at a place is.
#[tactic(auto, using(crate::proofs::Naming::names))]
pub(crate) fn read_name_word(alloc: Global, at: u32, word: &[u8]) -> Result<Name, SyntaxFault>
    ensures { Gives result (word_as at word.now a_name) }
{
    match Name::of(alloc, word)? {
        Some(name) => Ok(name),
        None => Err(SyntaxFault::Name(at)),
    }
}

/// The variable that a word at a place is.
pub(crate) fn read_variable_word(alloc: Global, at: u32, word: &[u8]) -> Result<Name, SyntaxFault>
    ensures { Gives result (word_as at word.now a_variable) }
{
    if is_literal(word) {
        return Err(SyntaxFault::Name(at));
    }
    read_name_word(alloc, at, word)
}

/// Whether the word stands for a literal.
fn is_literal(word: &[u8]) -> bool
    ensures { result ≡ words.is_literal word.now }
{
    word == b"null".as_slice() || word == b"true".as_slice() || word == b"false".as_slice()
}

/// The address that a word at a place is.
pub(crate) fn read_address_word(alloc: Global, at: u32, word: &[u8]) -> Result<Url, SyntaxFault>
    ensures { Gives result (word_as at word.now an_address) }
{
    match Url::read(alloc, word) {
        Ok(url) => Ok(url),
        Err(fault) => Err(address_fault(at, fault)),
    }
}

/// The fault of a word at a place that was refused as an address.
fn address_fault(at: u32, fault: UrlFault) -> SyntaxFault
    ensures { result ≡ grammar.address_fault at fault }
{
    match fault {
        UrlFault::NoMemory => SyntaxFault::NoMemory,
        _ => SyntaxFault::Url(at),
    }
}

/// The expression that a word at a place is.
pub(crate) fn read_word(alloc: Global, at: u32, word: &[u8]) -> Result<Expr, SyntaxFault>
    ensures { Gives result (word_as_expression at word.now) }
{
    if word == b"null".as_slice() {
        Ok(Expr::Lit(Lit::Null))
    } else if word == b"true".as_slice() {
        Ok(Expr::Lit(Lit::Bool(true)))
    } else if word == b"false".as_slice() {
        Ok(Expr::Lit(Lit::Bool(false)))
    } else if looks_like_number(word) {
        read_number(at, word)
    } else {
        Ok(Expr::Var(read_name_word(alloc, at, word)?))
    }
}

/// The number that a word at a place is.
fn read_number(at: u32, word: &[u8]) -> Result<Expr, SyntaxFault>
    ensures { result ≡ number_as at word.now }
{
    match read_num(word) {
        Some(n) => Ok(Expr::Lit(Lit::Num(n))),
        None => Err(SyntaxFault::Number(at)),
    }
}

/// Whether a word begins with a digit, or with a minus and a digit.
fn looks_like_number(word: &[u8]) -> bool
    ensures { result ≡ words.looks_like_number word.now }
{
    match word.split_first() {
        Some((first, rest)) => first.is_ascii_digit()
            || (*first == b'-' && begins_with_digit(rest)),
        None => false,
    }
}

fn begins_with_digit(word: &[u8]) -> bool
    ensures { result ≡ words.begins_with_digit word.now }
{
    match word.first() {
        Some(b) => b.is_ascii_digit(),
        None => false,
    }
}
