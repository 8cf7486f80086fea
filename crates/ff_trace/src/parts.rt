ghost use Rattle.std.specs.Prelude.{◌≡◌, ◌<◌, ◌^◌, IfOk, IfSome};
ghost use Rattle.std.specs.Str.{IsUtf8};
ghost use Rattle.ff_name.specs.Address.{IsWellSpelled as IsWellSpelledUrl};
ghost use Rattle.ff_name.specs.Spelling.{IsDomain};
ghost use Rattle.ff_text.specs.Printed.{IsWellSpelled};
ghost use Rattle.ff_value.specs.Spelled.{IsNat, IsWellSpelledResp};
ghost use Rattle.ff_trace.specs.declared.fault.LineFault.TheVariants.{Url as BadUrl};
ghost use Rattle.ff_trace.specs.Lines.{Gives};
ghost use Rattle.ff_trace.specs.Parts.{number_in, address_in, domain_in, string_in, response_in, or_fault};
ghost use Rattle.ff_name.specs.Reading.{read_url};
ghost use Rattle.ff_trace.specs.Parts as parts;

use crate::LineFault;
use ff_forms::SyntaxFault;
use ff_name::{Domain, Text, Url, UrlFault};
use ff_number::read_nat;
use ff_reading::read_resp;
use ff_text::Sexp;
use ff_value::Resp;
use std::alloc::Global;

/// The greatest number that a part may be.
const MOST_NUMBER: u64 = 4_294_967_295;

/// The number below 2^32 that a word spells. It is refused with `Number` exactly where it spells
/// none.
pub fn read_number(item: &Sexp) -> Result<u32, LineFault>
    ensures value { Gives result (number_in item.now) }
    ensures within { IfOk result IsNat }
{
    match item {
        Sexp::Word(_, text) => match number_of(text.as_bytes()) {
            Some(number) => Ok(number),
            None => Err(LineFault::Number),
        },
        _ => Err(LineFault::Number),
    }
}

/// The number that bytes spell in canonical decimal, at most `MOST_NUMBER`, or `None`.
pub fn number_of(bytes: &[u8]) -> Option<u32>
    ensures value { result ≡ parts.number_of bytes.now }
    ensures within { IfSome result IsNat }
{
    match read_nat(bytes) {
        Some(number) => {
            if number <= MOST_NUMBER {
                Some(number as u32)
            } else {
                None
            }
        }
        None => None,
    }
}

/// The address that a word spells. It is refused with `Url` where it spells none.
pub fn read_address(alloc: Global, item: &Sexp) -> Result<Url, LineFault>
    ensures value { Gives result (address_in item.now) }
    ensures well_spelled { IfOk result IsWellSpelledUrl }
{
    match item {
        Sexp::Word(_, text) => address_spelled(alloc, text.as_bytes()),
        _ => Err(LineFault::Url),
    }
}

fn address_spelled(alloc: Global, bytes: &[u8]) -> Result<Url, LineFault>
    ensures value { Gives result (or_fault BadUrl (read_url bytes.now)) }
    ensures well_spelled { IfOk result IsWellSpelledUrl }
{
    match Url::read(alloc, bytes) {
        Ok(url) => Ok(url),
        Err(fault) => match fault {
            UrlFault::NoMemory => Err(LineFault::NoMemory),
            _ => Err(LineFault::Url),
        },
    }
}

/// The domain that a word spells. It is refused with `Url` where it spells none.
pub fn read_domain(alloc: Global, item: &Sexp) -> Result<Domain, LineFault>
    ensures value { Gives result (domain_in item.now) }
    ensures spelled { IfOk result IsDomain }
{
    match item {
        Sexp::Word(_, text) => domain_of(alloc, text.as_bytes()),
        _ => Err(LineFault::Url),
    }
}

fn domain_of(alloc: Global, bytes: &[u8]) -> Result<Domain, LineFault>
    ensures value { Gives result (or_fault BadUrl (parts.domain_of bytes.now)) }
    ensures spelled { IfOk result IsDomain }
{
    match Domain::of(alloc, bytes) {
        Ok(answer) => match answer {
            Some(domain) => Ok(domain),
            None => Err(LineFault::Url),
        },
        Err(_) => Err(LineFault::NoMemory),
    }
}

/// The value of a string. What is none is refused with `Syntax` and its place.
pub fn read_string(item: &Sexp) -> Result<Text, LineFault>
    ensures value { Gives result (string_in item.now) }
    ensures utf8 { IfOk result IsUtf8 }
{
    match item {
        Sexp::Str(_, text) => match text.copy() {
            Ok(text) => Ok(text),
            Err(_) => Err(LineFault::NoMemory),
        },
        Sexp::Word(span, _) => Err(LineFault::Syntax(SyntaxFault::Place(span.from))),
        Sexp::List(span, _) => Err(LineFault::Syntax(SyntaxFault::Place(span.from))),
    }
}

/// The response that an item spells.
pub(crate) fn read_response(alloc: Global, item: &Sexp) -> Result<Resp, LineFault>
    ensures value { Gives result (response_in item.now) }
    ensures well_spelled { IsWellSpelled item.now → IfOk result IsWellSpelledResp }
{
    match read_resp(alloc, item) {
        Ok(resp) => Ok(resp),
        Err(SyntaxFault::NoMemory) => Err(LineFault::NoMemory),
        Err(fault) => Err(LineFault::Syntax(fault)),
    }
}
