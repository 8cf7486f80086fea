//! Single calls of the stores of a browser. A line is a word and what it takes, separated by single
//! blanks; windows, pages, slots and nodes go by their numbers, and a domain is that of an address.
//!
//! - `opens ADDRESS`, `go WINDOW ADDRESS` and `close WINDOW` are what a user does with windows, and
//!   `type NODE TEXT` with a box.
//! - `make DOCUMENT` makes a tree in the first activation.
//! - `send ADDRESS TEXT` sends a request for the first window, and `answer ADDRESS PLACE` takes the
//!   pending one at a place.
//! - `put ADDRESS KEY VALUE`, `delete ADDRESS KEY` and `entries ADDRESS RESPONSE` change cookies.
//! - `fill PAGE SLOT EXPRESSION` fills a slot.
//! - `weigh BYTES` lets the mass grow, where it may, and `mass BYTES` sets it.
//! - `kept ADDRESS` reads off the stores: the cookies and how many requests the domain has, and how
//!   many nodes there are.
ghost use Rattle.std.specs.Prelude.{◌≡◌, ◌<◌, None, IfOk, IsTrue, length};
ghost use Rattle.std.specs.List.{AllByRecursion};
ghost use Rattle.ff_value.specs.Spelled.{IsCookieOp, IsWellSpelledResp};
ghost use Rattle.ff_machine.specs.Nodes as t;
ghost use Rattle.ff_machine.specs.Windows as windows;

use crate::answers::Answer;
use crate::shown;
use crate::tree_words::{document, live, number, parted, response};
use anyhow::{Result, bail};
use ff_contract::Steps;
use ff_machine::{Dst, Pending};
use ff_name::{Domain, Text, Url};
use ff_operators::MOST_MASS;
use ff_script::read_body;
use ff_stores::Stores;
use ff_value::{ActId, Cookies, NodeId, Out, PageId, Resp, WinId};
use std::alloc::Global;
use std::sync::ledger::Ledger;

/// Makes the call of a line, and prints what was put and what it answered.
pub fn follow<C: Ledger>(
    rt: &HostRuntime,
    alloc: Global,
    stores: &mut Stores,
    line: &str,
    copies: &mut Steps<C>,
) -> Result<()> {
    let (word, rest) = parted(line)?;
    if word == "kept" {
        return kept(rt, alloc, stores, rest);
    }
    let mut outs = Vec::new(alloc);
    let answer = change(alloc, stores, word, rest, &mut outs, copies)?;
    shown::outputs(rt, alloc, &outs)?;
    answer.show(rt)?;
    Ok(())
}

/// What a call that may change the stores answers.
fn change<C: Ledger>(
    alloc: Global,
    stores: &mut Stores,
    word: &str,
    rest: &str,
    outs: &mut Vec<Out>,
    copies: &mut Steps<C>,
) -> Result<Answer> {
    match word {
        "opens" | "go" | "close" | "type" | "make" => act(alloc, stores, word, rest, outs, copies),
        "send" | "answer" => ask(alloc, stores, word, rest, outs, copies),
        "put" | "delete" | "entries" => change_jar(alloc, stores, word, rest, copies),
        "fill" => fill(alloc, stores, rest, copies),
        "weigh" | "mass" => weigh(stores, word, rest),
        _ => bail!("no call: {word}"),
    }
}

/// What a user does with windows, and a tree that is made.
fn act<C: Ledger>(
    alloc: Global,
    stores: &mut Stores,
    word: &str,
    rest: &str,
    outs: &mut Vec<Out>,
    copies: &mut Steps<C>,
) -> Result<Answer> {
    match word {
        "opens" => {
            let url = Url::read(alloc, rest.as_bytes())?;
            stores.opens(&url, outs, copies)?;
            Ok(Answer::Done)
        }
        "go" => go(alloc, stores, rest, outs, copies),
        "close" => {
            stores.close_window(WinId(number(rest)?), outs, copies)?;
            Ok(Answer::Done)
        }
        "type" => type_text(alloc, stores, rest, copies),
        _ => make(alloc, stores, rest, copies),
    }
}

fn go<C: Ledger>(
    alloc: Global,
    stores: &mut Stores,
    rest: &str,
    outs: &mut Vec<Out>,
    copies: &mut Steps<C>,
) -> Result<Answer> {
    let (window, address) = parted(rest)?;
    let window = open_window(stores, window)?;
    let url = Url::read(alloc, address.as_bytes())?;
    Ok(Answer::Said(stores.go(window, &url, outs, copies)?))
}

/// The open window whose number a word spells.
fn open_window(stores: &Stores, word: &str) -> Result<WinId>
    ensures { IfOk result (λ n. IsTrue (windows.is_open stores.now.windows n)) }
{
    let n = WinId(number(word)?);
    if !stores.windows().is_open(n) {
        bail!("no open window: {word}");
    }
    Ok(n)
}

fn type_text<C: Ledger>(
    alloc: Global,
    stores: &mut Stores,
    rest: &str,
    copies: &mut Steps<C>,
) -> Result<Answer> {
    let (n, text) = parted(rest)?;
    let n = with_text(stores, n)?;
    let text = Text::of_str(alloc, text)?;
    Ok(Answer::Said(stores.type_text(n, &text, copies)?))
}

/// The node with a text whose number a word spells.
fn with_text(stores: &Stores, word: &str) -> Result<NodeId>
    ensures lives { IfOk result (λ n. n.0 < length stores.now.nodes) }
    ensures text { IfOk result (λ n. t.text_fault stores.now.nodes n ≡ None) }
{
    let n = live(stores.nodes(), word)?;
    if stores.nodes().text(n).is_none() {
        bail!("no text: {word}");
    }
    Ok(n)
}

fn make<C: Ledger>(
    alloc: Global,
    stores: &mut Stores,
    rest: &str,
    copies: &mut Steps<C>,
) -> Result<Answer> {
    let doc = document(alloc, rest)?;
    if stores.windows().next_act().0 == 0 {
        bail!("no activation");
    }
    Ok(Answer::made(stores.make_tree(ActId(0), &doc, copies)))
}

/// A request is sent, or answered.
fn ask<C: Ledger>(
    alloc: Global,
    stores: &mut Stores,
    word: &str,
    rest: &str,
    outs: &mut Vec<Out>,
    copies: &mut Steps<C>,
) -> Result<Answer> {
    let (address, rest) = parted(rest)?;
    let url = Url::read(alloc, address.as_bytes())?;
    match &url {
        Url::At(domain, uri) => {
            if word == "answer" {
                answer(alloc, stores, domain, rest, copies)
            } else {
                let text = Text::of_str(alloc, rest)?;
                if stores.windows().next_win().0 == 0 {
                    bail!("no window");
                }
                let to = Dst::Window(WinId(0));
                Ok(Answer::Said(stores.send(domain, uri, &text, to, outs, copies)?))
            }
        }
        Url::Blank => bail!("no domain: {address}"),
    }
}

fn answer<C: Ledger>(
    alloc: Global,
    stores: &mut Stores,
    domain: &Domain,
    place: &str,
    copies: &mut Steps<C>,
) -> Result<Answer> {
    match stores.take_answer(domain, number(place)?, copies)? {
        Some(pending) => Ok(for_whom(&pending)),
        None => Ok(Answer::Nothing),
    }
}

fn for_whom(pending: &Pending) -> Answer {
    match &pending.dst {
        Dst::Window(window) => Answer::ForWindow(*window),
        Dst::Slot(page, slot) => Answer::ForSlot(*page, *slot),
        Dst::Call(page, _) => Answer::ForCall(*page),
    }
}

/// The domain of an address.
fn domain_of(alloc: Global, address: &str) -> Result<Domain> {
    let url = Url::read(alloc, address.as_bytes())?;
    match &url {
        Url::At(domain, _) => Ok(domain.copy()?),
        Url::Blank => bail!("no domain: {address}"),
    }
}

/// The cookies of a domain change.
fn change_jar<C: Ledger>(
    alloc: Global,
    stores: &mut Stores,
    word: &str,
    rest: &str,
    copies: &mut Steps<C>,
) -> Result<Answer> {
    let (address, rest) = parted(rest)?;
    let domain = domain_of(alloc, address)?;
    match word {
        "put" => put(alloc, stores, &domain, rest, copies),
        "delete" => {
            let key = Text::of_str(alloc, rest)?;
            stores.delete_cookie(&domain, &key, copies)?;
            Ok(Answer::Done)
        }
        _ => {
            let entries = cookies_of(&response(alloc, rest)?)?;
            stores.put_cookies(&domain, &entries, copies)?;
            Ok(Answer::Done)
        }
    }
}

fn put<C: Ledger>(
    alloc: Global,
    stores: &mut Stores,
    domain: &Domain,
    rest: &str,
    copies: &mut Steps<C>,
) -> Result<Answer> {
    let (key, value) = parted(rest)?;
    let key = Text::of_str(alloc, key)?;
    let value = Text::of_str(alloc, value)?;
    Ok(Answer::done(stores.put_cookie(domain, &key, &value, copies)))
}

fn cookies_of(response: &Resp) -> Result<Cookies>
    requires { IsWellSpelledResp response.now }
    ensures { IfOk result (λ cookies. AllByRecursion IsCookieOp cookies) }
{
    match response {
        Resp::Data(cookies, _) => Ok(cookies.copy()?),
        _ => bail!("no data"),
    }
}

fn fill<C: Ledger>(
    alloc: Global,
    stores: &mut Stores,
    rest: &str,
    copies: &mut Steps<C>,
) -> Result<Answer> {
    let (page, rest) = parted(rest)?;
    let (slot, expression) = parted(rest)?;
    let page = PageId(number(page)?);
    let slot = number(slot)?;
    let body = read_body(alloc, expression)?;
    if page.0 >= stores.windows().next_page().0 {
        bail!("no page");
    }
    Ok(Answer::Said(stores.fill_slot(page, slot, &body, copies)?))
}

/// The mass grows where it may, or is set.
fn weigh(stores: &mut Stores, word: &str, rest: &str) -> Result<Answer> {
    let Ok(bytes) = rest.parse::<u64>() else {
        bail!("no number: {rest}");
    };
    if word == "weigh" {
        let may = stores.may_weigh(bytes);
        let did = stores.weigh(bytes);
        return Ok(Answer::Weighed(may, did, stores.mass()));
    }
    if bytes > MOST_MASS {
        bail!("no mass: {bytes}");
    }
    stores.set_mass(bytes);
    Ok(Answer::Mass(stores.mass()))
}

/// Prints what is read off the stores.
fn kept<R: Print>(rt: &R, alloc: Global, stores: &Stores, address: &str) -> Result<()> {
    let domain = domain_of(alloc, address)?;
    let cookies = shown::pairs(alloc, &stores.jar().of(&domain)?)?;
    let pending = stores.requests().len(&domain);
    let nodes = stores.nodes().len();
    println!(rt; "  cookies {cookies}, pending {pending}, nodes {nodes}")?;
    Ok(())
}
