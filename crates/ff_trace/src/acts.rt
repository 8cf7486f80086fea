ghost use Rattle.std.specs.Prelude.{◌≡◌, IfOk};
ghost use Rattle.ff_text.specs.Printed.{AreWellSpelled};
ghost use Rattle.ff_value.specs.Spelled.{IsWellSpelledAct};
ghost use Rattle.ff_value.specs.declared.kind.Kind.TheVariants as kinds;
ghost use Rattle.ff_trace.specs.Lines.{Gives, act_of, act_in};
ghost use Rattle.ff_trace.specs.Lines as lines;

use crate::LineFault;
use crate::parts::{read_address, read_domain, read_number, read_response, read_string};
use ff_name::by_word;
use ff_text::Sexp;
use ff_value::{Act, Kind};
use std::alloc::Global;

/// The act of a kind and its parts.
pub(crate) fn read_act(alloc: Global, items: &[Sexp]) -> Result<Act, LineFault>
    ensures value { Gives result (act_in items.now) }
    ensures well_spelled { AreWellSpelled items.now → IfOk result IsWellSpelledAct }
{
    match items.split_first() {
        Some((first, parts)) => match kind_of(first) {
            Some(kind) => read_kind(alloc, kind, parts),
            None => Err(LineFault::Kind),
        },
        None => Err(LineFault::Kind),
    }
}

/// The kind that an item names, or `None` where it is no word, or that of no kind.
pub fn kind_of(item: &Sexp) -> Option<Kind>
    ensures { result ≡ lines.kind_of item.now }
{
    match item {
        Sexp::Word(_, text) => by_word(text.as_bytes()),
        _ => None,
    }
}

fn read_kind(alloc: Global, kind: Kind, parts: &[Sexp]) -> Result<Act, LineFault>
    ensures value { Gives result (act_of kind parts.now) }
    ensures well_spelled { AreWellSpelled parts.now → IfOk result IsWellSpelledAct }
{
    match kind {
        Kind::Open => read_open(alloc, parts),
        Kind::Go => read_go(alloc, parts),
        Kind::Link => read_link(parts),
        Kind::Close => read_close(parts),
        Kind::Type => read_type(parts),
        Kind::Click => read_click(parts),
        Kind::Reply => read_reply(alloc, parts),
    }
}

fn read_open(alloc: Global, parts: &[Sexp]) -> Result<Act, LineFault>
    ensures value { Gives result (act_of kinds.Open parts.now) }
    ensures well_spelled { IfOk result IsWellSpelledAct }
{
    match parts {
        [url] => Ok(Act::Opens(read_address(alloc, url)?)),
        _ => Err(LineFault::Count),
    }
}

fn read_go(alloc: Global, parts: &[Sexp]) -> Result<Act, LineFault>
    ensures value { Gives result (act_of kinds.Go parts.now) }
    ensures well_spelled { IfOk result IsWellSpelledAct }
{
    match parts {
        [win, url] => Ok(Act::Goes(read_number(win)?, read_address(alloc, url)?)),
        _ => Err(LineFault::Count),
    }
}

fn read_link(parts: &[Sexp]) -> Result<Act, LineFault>
    ensures value { Gives result (act_of kinds.Link parts.now) }
    ensures well_spelled { IfOk result IsWellSpelledAct }
{
    match parts {
        [win, link] => Ok(Act::Links(read_number(win)?, read_number(link)?)),
        _ => Err(LineFault::Count),
    }
}

fn read_close(parts: &[Sexp]) -> Result<Act, LineFault>
    ensures value { Gives result (act_of kinds.Close parts.now) }
    ensures well_spelled { IfOk result IsWellSpelledAct }
{
    match parts {
        [win] => Ok(Act::Closes(read_number(win)?)),
        _ => Err(LineFault::Count),
    }
}

fn read_type(parts: &[Sexp]) -> Result<Act, LineFault>
    ensures value { Gives result (act_of kinds.Type parts.now) }
    ensures well_spelled { IfOk result IsWellSpelledAct }
{
    match parts {
        [win, field, text] => Ok(Act::Types(
            read_number(win)?,
            read_number(field)?,
            read_string(text)?,
        )),
        _ => Err(LineFault::Count),
    }
}

fn read_click(parts: &[Sexp]) -> Result<Act, LineFault>
    ensures value { Gives result (act_of kinds.Click parts.now) }
    ensures well_spelled { IfOk result IsWellSpelledAct }
{
    match parts {
        [win, button] => Ok(Act::Clicks(read_number(win)?, read_number(button)?)),
        _ => Err(LineFault::Count),
    }
}

fn read_reply(alloc: Global, parts: &[Sexp]) -> Result<Act, LineFault>
    ensures value { Gives result (act_of kinds.Reply parts.now) }
    ensures well_spelled { AreWellSpelled parts.now → IfOk result IsWellSpelledAct }
{
    match parts {
        [domain, request, resp] => Ok(Act::Replies(
            read_domain(alloc, domain)?,
            read_number(request)?,
            read_response(alloc, resp)?,
        )),
        _ => Err(LineFault::Count),
    }
}
