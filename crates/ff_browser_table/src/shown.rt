//! What is printed of outputs, values and ends.

use crate::redexes;
use crate::running::End;
use anyhow::Result;
use ff_name::{Domain, Url};
use ff_printing::{print_expr, print_pairs, print_shown};
use ff_value::{Expr, Out, Pairs, Shown, Text, Val};
use std::alloc::Global;
use std::io;

/// The longest text that is printed whole, in bytes.
const MOST_PRINTED: usize = 60;

/// How many outputs are printed of one script.
const MOST_OUTPUTS: usize = 6;

/// Prints the last outputs, and how many there were before them.
pub fn outputs<R: Print>(rt: &R, alloc: Global, outs: &[Out]) -> Result<()> {
    let first = outs.len().saturating_sub(MOST_OUTPUTS);
    if first > 0 {
        println!(rt; "  {first} outputs and then")?;
    }
    for out in outs.iter().skip(first) {
        output(rt, alloc, out)?;
    }
    Ok(())
}

fn output<R: Print>(rt: &R, alloc: Global, out: &Out) -> Result<()> {
    match out {
        Out::Opened => println!(rt; "  opened")?,
        Out::Closed(place) => println!(rt; "  closed {place}")?,
        Out::Loaded(place, url, shown) => loaded(rt, alloc, *place, url, shown)?,
        Out::Updated(place, shown) => println!(rt; "  updated {place} {}", page(alloc, shown)?)?,
        Out::Error(place, fault) => println!(rt; "  error {place} {}", fault.word())?,
        Out::Stopped => println!(rt; "  stopped")?,
        Out::Send(domain, uri, cookies, body) => sent(rt, alloc, domain, uri, cookies, body)?,
    }
    Ok(())
}

fn loaded<R: Print>(rt: &R, alloc: Global, place: u32, url: &Url, shown: &Shown) -> Result<()> {
    print!(rt; "  loaded {place} {}", address(alloc, url)?)?;
    println!(rt; " {}", page(alloc, shown)?)?;
    Ok(())
}

fn sent<R: Print>(
    rt: &R,
    alloc: Global,
    to: &Domain,
    uri: &Text,
    cookies: &Pairs,
    body: &Text,
) -> Result<()> {
    print!(rt; "  send {} {:?}", to.text().as_str(), uri.as_str())?;
    println!(rt; " {} {:?}", pairs(alloc, cookies)?, body.as_str())?;
    Ok(())
}

fn address(alloc: Global, url: &Url) -> Result<String> {
    let mut out = Vec::new(alloc);
    url.print(&mut out)?;
    Ok(String::from_utf8(out)?)
}

fn page(alloc: Global, shown: &Shown) -> Result<String> {
    let mut out = Vec::new(alloc);
    print_shown(shown, &mut out)?;
    Ok(String::from_utf8(out)?)
}

/// An expression.
pub fn expression(alloc: Global, body: &Expr) -> Result<String> {
    let mut out = Vec::new(alloc);
    print_expr(body, &mut out)?;
    Ok(String::from_utf8(out)?)
}

/// The pairs of a domain's cookies.
pub fn pairs(alloc: Global, cookies: &Pairs) -> Result<String> {
    let mut out = Vec::new(alloc);
    print_pairs(cookies, &mut out)?;
    Ok(String::from_utf8(out)?)
}

/// Prints how a script ended, and after how many reductions.
pub fn end<R: Print>(rt: &R, end: &End, reductions: u32) -> io::Result<()> {
    print!(rt; "  ")?;
    end_words(rt, end)?;
    println!(rt; ", reductions {reductions}")
}

fn end_words<R: Print>(rt: &R, end: &End) -> io::Result<()> {
    match end {
        End::Value(v) => value(rt, v),
        End::Fault(fault) => print!(rt; "fault {}", fault.word()),
        End::Gone => print!(rt; "the page is gone"),
        End::GoesOn => print!(rt; "goes on"),
    }
}

fn value<R: Print>(rt: &R, value: &Val) -> io::Result<()> {
    match value {
        Val::Str(text) => quoted(rt, text),
        Val::Code(code) => print!(rt; "a function of activation {}", code.env.0),
        _ => redexes::value(rt, value),
    }
}

fn quoted<R: Print>(rt: &R, text: &Text) -> io::Result<()> {
    let many = text.as_bytes().len();
    if many > MOST_PRINTED {
        return print!(rt; "*{many}");
    }
    print!(rt; "{:?}", text.as_str())
}
