//! Pending requests.
ghost use Rattle.std.specs.Prelude.{IfOk};
ghost use Rattle.ff_name.specs.Address.{IsRequest};

use crate::reading::{domain, number, parted, text};
use crate::restoring::function;
use crate::words::{spelled, yes_or_no};
use anyhow::{Result, bail};
use ff_contract::Steps;
use ff_machine::{Dst, Pending};
use ff_name::{Domain, Text, Url};
use ff_net::Requests;
use ff_script::read_body;
use ff_value::{ActId, Code, Names, PageId, WinId};
use std::alloc::Global;
use std::sync::ledger::Ledger;

/// What a line gives.
pub fn take<C: Ledger>(
    alloc: Global,
    requests: &mut Requests,
    line: &str,
    copies: &mut Steps<C>,
) -> Result<String> {
    let (word, rest) = parted(line);
    match word {
        "ask" => ask(alloc, requests, rest, copies),
        "answer" => answer(alloc, requests, rest, copies),
        "copy" => copy(alloc, rest),
        _ => counted(alloc, requests, word, rest),
    }
}

/// How many requests of a domain are pending, or whether there is room for one more.
fn counted(alloc: Global, requests: &Requests, word: &str, rest: &str) -> Result<String> {
    let to = domain(alloc, rest)?;
    match word {
        "count" => Ok(format!(in alloc; "{}", requests.len(&to))?),
        "room" => Ok(format!(in alloc; "{}", yes_or_no(requests.room(&to)))?),
        _ => bail!("no line of requests: {word}"),
    }
}

fn ask<C: Ledger>(
    alloc: Global,
    requests: &mut Requests,
    rest: &str,
    copies: &mut Steps<C>,
) -> Result<String> {
    let (to, rest) = parted(rest);
    let (uri, dst) = parted(rest);
    let (to, uri) = address(alloc, to, uri)?;
    if !requests.room(&to) {
        return Ok(format!(in alloc; "no room")?);
    }
    requests.ask(&to, &uri, Dst::Window(window(dst)?), copies)?;
    Ok(format!(in alloc; "done")?)
}

/// The window that a reply is for.
fn window(words: &str) -> Result<WinId> {
    let (word, rest) = parted(words);
    match word {
        "window" => Ok(WinId(number(rest)?)),
        _ => bail!("no window that a reply is for: {word}"),
    }
}

/// The domain and the request text of an address.
fn address(alloc: Global, to: &str, uri: &str) -> Result<(Domain, Text)>
    ensures { IfOk result (λ parts. IsRequest parts.1) }
{
    let written = format!(in alloc; "http://{to}{uri}")?;
    let url = Url::read(alloc, written.as_bytes())?;
    match &url {
        Url::At(to, uri) => Ok((to.copy()?, uri.copy()?)),
        Url::Blank => bail!("no address: {written}"),
    }
}

/// What a reply is for.
pub fn destination(alloc: Global, words: &str) -> Result<Dst> {
    let (word, rest) = parted(words);
    let (first, rest) = parted(rest);
    let first = number(first)?;
    match word {
        "window" => Ok(Dst::Window(WinId(first))),
        "slot" => Ok(Dst::Slot(PageId(first), number(rest)?)),
        "call" => Ok(Dst::Call(PageId(first), callback(alloc, rest)?)),
        "hear" => Ok(Dst::Call(PageId(first), function(alloc, rest)?)),
        _ => bail!("nothing that a reply is for: {word}"),
    }
}

/// A function without parameters.
fn callback(alloc: Global, words: &str) -> Result<Code> {
    let (env, body) = parted(words);
    let env = ActId(number(env)?);
    let body = read_body(alloc, body)?;
    let params = Names::from_vec(alloc, Vec::new(alloc))?;
    Ok(Code { params, body, env })
}

fn answer<C: Ledger>(
    alloc: Global,
    requests: &mut Requests,
    rest: &str,
    copies: &mut Steps<C>,
) -> Result<String> {
    let (to, place) = parted(rest);
    let to = domain(alloc, to)?;
    match requests.answer(&to, number(place)?, copies)? {
        Some(pending) => pending_words(alloc, &pending),
        None => Ok(format!(in alloc; "none")?),
    }
}

fn pending_words(alloc: Global, pending: &Pending) -> Result<String> {
    let uri = pending.uri.as_str();
    match &pending.dst {
        Dst::Window(window) => Ok(format!(in alloc; "{uri} for window {}", window.0)?),
        Dst::Slot(page, slot) => Ok(format!(in alloc; "{uri} for slot {slot} of page {}", page.0)?),
        Dst::Call(page, code) => {
            let code = code_words(alloc, code)?;
            Ok(format!(in alloc; "{uri} for a function of page {} and {code}", page.0)?)
        }
    }
}

fn code_words(alloc: Global, code: &Code) -> Result<String> {
    let body = spelled(alloc, code.body.get())?;
    let many = code.params.len();
    Ok(format!(in alloc; "activation {}, {many} parameters, {body}", code.env.0)?)
}

fn copy(alloc: Global, rest: &str) -> Result<String> {
    let (uri, dst) = parted(rest);
    let uri = text(alloc, uri)?;
    let dst = destination(alloc, dst)?;
    pending_words(alloc, &copied(Pending { uri, dst })?)
}

fn copied(pending: Pending) -> Result<Pending> {
    Ok(pending.copy()?)
}
