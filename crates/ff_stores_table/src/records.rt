//! Copies of the small records of the machine that no other line makes.

use crate::reading::{address, name, number, parted, text};
use crate::words::{address as address_words, spelled};
use anyhow::{Result, bail};
use ff_machine::{Entry, Shape};
use ff_script::read_body;
use ff_value::PageId;
use std::alloc::Global;

/// What a line gives.
pub fn take(alloc: Global, line: &str) -> Result<String> {
    let (word, rest) = parted(line);
    match word {
        "shape" => shape_words(alloc, &copied(shape(alloc, rest)?)?),
        "entry" => entry_words(alloc, &entry(alloc, rest)?),
        _ => bail!("no record: {word}"),
    }
}

fn copied(shape: Shape) -> Result<Shape> {
    Ok(shape.copy()?)
}

fn entry(alloc: Global, words: &str) -> Result<Entry> {
    let (word, rest) = parted(words);
    match word {
        "ready" => Ok(Entry::Ready(read_body(alloc, rest)?)),
        "wait" => Ok(Entry::Wait(number(rest)?)),
        _ => bail!("no entry: {word}"),
    }
}

fn entry_words(alloc: Global, entry: &Entry) -> Result<String> {
    match &entry.copy()? {
        Entry::Ready(body) => {
            let body = spelled(alloc, body.get())?;
            Ok(format!(in alloc; "ready: {body}")?)
        }
        Entry::Wait(slot) => Ok(format!(in alloc; "waiting for slot {slot}")?),
    }
}

/// The shape that words say: its kind, its name, and what else it has.
fn shape(alloc: Global, words: &str) -> Result<Shape> {
    let (kind, rest) = parted(words);
    let (first, rest) = parted(rest);
    match kind {
        "page" => Ok(Shape::Page(PageId(number(first)?))),
        "text" => Ok(Shape::Text(name(alloc, first)?, text(alloc, rest)?)),
        "box" => Ok(Shape::TextBox(name(alloc, first)?, text(alloc, rest)?)),
        "button" => Ok(Shape::Button(name(alloc, first)?, text(alloc, rest)?)),
        "div" => Ok(Shape::Div(name(alloc, first)?)),
        _ => long_shape(alloc, kind, first, rest),
    }
}

/// A link, or a script, which was started or waits.
fn long_shape(alloc: Global, kind: &str, first: &str, rest: &str) -> Result<Shape> {
    let (second, rest) = parted(rest);
    let started = second == "started";
    match kind {
        "link" => Ok(Shape::Link(
            name(alloc, first)?,
            address(alloc, second)?,
            text(alloc, rest)?,
        )),
        "script" => Ok(Shape::Script(name(alloc, first)?, started, read_body(alloc, rest)?)),
        "src" => Ok(Shape::Src(name(alloc, first)?, started, address(alloc, rest)?)),
        _ => bail!("no shape: {kind}"),
    }
}

fn shape_words(alloc: Global, shape: &Shape) -> Result<String> {
    match shape {
        Shape::Page(page) => Ok(format!(in alloc; "the root of page {}", page.0)?),
        Shape::Text(name, text) => Ok(format!(in alloc;
            "text {} {:?}",
            name.text().as_str(),
            text.as_str()
        )?),
        Shape::TextBox(name, text) => Ok(format!(in alloc;
            "box {} {:?}",
            name.text().as_str(),
            text.as_str()
        )?),
        Shape::Button(name, label) => Ok(format!(in alloc;
            "button {} {:?}",
            name.text().as_str(),
            label.as_str()
        )?),
        Shape::Div(name) => Ok(format!(in alloc; "div {}", name.text().as_str())?),
        Shape::Link(name, url, label) => {
            let url = address_words(alloc, url)?;
            Ok(format!(in alloc; "link {} {url} {:?}", name.text().as_str(), label.as_str())?)
        }
        Shape::Script(name, started, body) => {
            let body = spelled(alloc, body.get())?;
            begun(
                alloc,
                "script",
                name.text().as_str(),
                *started,
                body.as_str(),
            )
        }
        Shape::Src(name, started, url) => {
            let url = address_words(alloc, url)?;
            begun(alloc, "src", name.text().as_str(), *started, url.as_str())
        }
    }
}

fn begun(alloc: Global, what: &str, name: &str, started: bool, rest: &str) -> Result<String> {
    let started = if started { "started" } else { "not started" };
    Ok(format!(in alloc; "{what} {name}, {started}, {rest}")?)
}
