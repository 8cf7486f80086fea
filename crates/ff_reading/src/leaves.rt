//! What stands in forms beside documents and expressions: names, addresses, texts, parameters and
//! cookie entries.
ghost use Rattle.std.specs.Prelude.{◌≡◌, [], map};
ghost use Rattle.ff_forms.specs.Grammar.{Gives, reading, a_name, a_variable, a_string, an_address, parameters, one_parameter, cookies, a_cookie, parameters_as, parameter_as, one_parameter_as, word_as, each_as, form_as, list_as, cookie_form};
ghost use Rattle.ff_forms.specs.Heads.{cookie_word, cookie_heads};
ghost use Rattle.ff_forms.specs.declared.heads.CookieHead.TheVariants as cookie_head;

use crate::parameters::Parameters;
use crate::shapes::{as_list, as_word, head_of};
use crate::words::{read_address_word, read_name_word, read_variable_word};
use ff_forms::{CookieHead, SyntaxFault};
use ff_text::Sexp;
use ff_value::{CookieOp, Cookies, Name, Names, SharedList, Text, Url};
use std::alloc::Global;

/// The name that an item is.
pub(crate) fn read_name(alloc: Global, item: &Sexp) -> Result<Name, SyntaxFault>
    ensures { Gives result (reading item.now a_name) }
{
    let (at, word) = as_word(item)?;
    read_name_word(alloc, at, word)
}

/// The variable that an item is.
pub(crate) fn read_variable(alloc: Global, item: &Sexp) -> Result<Name, SyntaxFault>
    ensures { Gives result (reading item.now a_variable) }
{
    let (at, word) = as_word(item)?;
    read_variable_word(alloc, at, word)
}

/// The address that an item is.
pub(crate) fn read_address(alloc: Global, item: &Sexp) -> Result<Url, SyntaxFault>
    ensures { Gives result (reading item.now an_address) }
{
    let (at, word) = as_word(item)?;
    read_address_word(alloc, at, word)
}

/// The text of the string that an item is.
pub(crate) fn read_string(item: &Sexp) -> Result<Text, SyntaxFault>
    ensures { Gives result (reading item.now a_string) }
{
    match item {
        Sexp::Word(at, _) => Err(SyntaxFault::Place(at.from)),
        Sexp::Str(_, text) => Ok(text.copy()?),
        Sexp::List(at, _) => Err(SyntaxFault::Place(at.from)),
    }
}

/// The parameters of a function that an item is.
pub(crate) fn read_parameters(alloc: Global, item: &Sexp) -> Result<Names, SyntaxFault>
    ensures { Gives result (reading item.now parameters) }
{
    let (_, parts) = as_list(item)?;
    read_each_parameter(alloc, parts)
}

fn read_each_parameter(alloc: Global, parts: &[Sexp]) -> Result<Names, SyntaxFault>
    ensures { Gives result (parameters_as [] (map reading parts.now)) }
{
    let mut names = Parameters::new(alloc);
    for part in parts {
        let name = read_parameter(alloc, part, &names)?;
        names.push(alloc, name)?;
    }
    Ok(names.into_list(alloc)?)
}

/// The parameter that an item is, after some that stand before it.
fn read_parameter(alloc: Global, part: &Sexp, before: &Parameters) -> Result<Name, SyntaxFault>
    ensures { Gives result (parameter_as before.now (reading part.now)) }
{
    let (at, word) = as_word(part)?;
    read_parameter_word(alloc, at, word, before)
}

/// The parameter that a word at a place is, after some that stand before it.
fn read_parameter_word(
    alloc: Global,
    at: u32,
    word: &[u8],
    before: &Parameters,
) -> Result<Name, SyntaxFault>
    ensures { Gives result (parameter_as before.now (word_as at word.now)) }
{
    let name = read_variable_word(alloc, at, word)?;
    if before.has(&name) {
        Err(SyntaxFault::Name(at))
    } else {
        Ok(name)
    }
}

/// The parameter of a handler that an item is.
pub(crate) fn read_one_parameter(alloc: Global, item: &Sexp) -> Result<Name, SyntaxFault>
    ensures { Gives result (reading item.now one_parameter) }
{
    let (at, parts) = as_list(item)?;
    read_the_parameter(alloc, at, parts)
}

fn read_the_parameter(alloc: Global, at: u32, parts: &[Sexp]) -> Result<Name, SyntaxFault>
    ensures { Gives result (one_parameter_as at (map reading parts.now)) }
{
    match parts {
        [part] => read_variable(alloc, part),
        _ => Err(SyntaxFault::Count(at)),
    }
}

/// The cookie entries that an item is.
pub(crate) fn read_cookies(alloc: Global, item: &Sexp) -> Result<Cookies, SyntaxFault>
    ensures { Gives result (reading item.now cookies) }
{
    let (_, parts) = as_list(item)?;
    read_each_cookie(alloc, parts)
}

fn read_each_cookie(alloc: Global, parts: &[Sexp]) -> Result<Cookies, SyntaxFault>
    ensures { Gives result (each_as a_cookie (map reading parts.now)) }
{
    let mut entries = Vec::new(alloc);
    for part in parts {
        entries.push(read_cookie(part)?)?;
    }
    Ok(SharedList::from_vec(alloc, entries)?)
}

/// The cookie entry that an item is.
fn read_cookie(item: &Sexp) -> Result<CookieOp, SyntaxFault>
    ensures { Gives result (reading item.now a_cookie) }
{
    let (at, parts) = as_list(item)?;
    read_cookie_list(at, parts)
}

fn read_cookie_list(at: u32, items: &[Sexp]) -> Result<CookieOp, SyntaxFault>
    ensures { Gives result (list_as cookie_word cookie_heads cookie_form at
        (map reading items.now)) }
{
    match items.split_first() {
        Some((first, parts)) => read_cookie_form(at, head_of(first)?, parts),
        None => Err(SyntaxFault::Head(at)),
    }
}

fn read_cookie_form(at: u32, head: CookieHead, parts: &[Sexp]) -> Result<CookieOp, SyntaxFault>
    ensures { Gives result (form_as at (cookie_form head) (map reading parts.now)) }
{
    match head {
        CookieHead::Put => read_put(at, parts),
        CookieHead::Drop => read_drop(at, parts),
    }
}

/// `(set STR STR)`.
fn read_put(at: u32, parts: &[Sexp]) -> Result<CookieOp, SyntaxFault>
    ensures { Gives result (form_as at (cookie_form cookie_head.Put) (map reading parts.now)) }
{
    match parts {
        [key, value] => Ok(CookieOp::Put(read_string(key)?, read_string(value)?)),
        _ => Err(SyntaxFault::Count(at)),
    }
}

/// `(del STR)`.
fn read_drop(at: u32, parts: &[Sexp]) -> Result<CookieOp, SyntaxFault>
    ensures { Gives result (form_as at (cookie_form cookie_head.Drop) (map reading parts.now)) }
{
    match parts {
        [key] => Ok(CookieOp::Drop(read_string(key)?)),
        _ => Err(SyntaxFault::Count(at)),
    }
}
