//! Items: read, printed again, or refused.

use crate::spelling::text_of;
use anyhow::{Context, Result, bail};
use ff_text::{
    Escaped, MOST_BYTES, Sexp, Text, TextFault, is_plain, print, quote, read, read_items,
};
use std::alloc::Global;

/// The one item that the bytes spell, printed, or the first fault.
pub fn item(alloc: Global, bytes: &[u8]) -> Result<String> {
    if bytes.len() > MOST_BYTES {
        bail!("a text is too long");
    }
    match read(alloc, bytes) {
        Ok(item) => printed(alloc, &item),
        Err(fault) => refused(alloc, fault),
    }
}

/// All items that the bytes spell, a line for each, or the first fault.
pub fn items(alloc: Global, bytes: &[u8]) -> Result<String> {
    if bytes.len() > MOST_BYTES {
        bail!("a text is too long");
    }
    match read_items(alloc, bytes) {
        Ok(items) => each_printed(alloc, items.as_slice()),
        Err(fault) => refused(alloc, fault),
    }
}

fn refused(alloc: Global, fault: TextFault) -> Result<String> {
    Ok(format!(in alloc; "{fault}")?)
}

fn each_printed(alloc: Global, items: &[Sexp]) -> Result<String> {
    let mut lines = format!(in alloc; "{} items", items.len())?;
    for item in items {
        lines.push('\n')?;
        lines.push_str(printed(alloc, item)?.as_str())?;
    }
    Ok(lines)
}

fn printed(alloc: Global, item: &Sexp) -> Result<String> {
    let mut out = Vec::new(alloc);
    print(item, &mut out)?;
    text_of(alloc, out)
}

/// Whether so many lists in one another are read.
pub fn nested(alloc: Global, count: &str) -> Result<String> {
    let count = count.parse::<usize>()?;
    let mut text = vec![in alloc; b'('; count]?;
    text.extend_from_slice(&vec![in alloc; b')'; count]?)?;
    if text.len() > MOST_BYTES {
        bail!("a text is too long");
    }
    match read_items(alloc, &text) {
        Ok(items) => Ok(format!(in alloc; "{} items", items.len())?),
        Err(fault) => refused(alloc, fault),
    }
}

/// A string with this value.
pub fn quoted(alloc: Global, value: &[u8]) -> Result<String> {
    let text = Text::of(alloc, value)?.context("a text")?;
    let mut out = Vec::new(alloc);
    quote(&text, &mut out)?;
    text_of(alloc, out)
}

/// What stands for the first of these bytes.
pub fn escaped(alloc: Global, bytes: &[u8]) -> Result<String> {
    let b = *bytes.first().context("a byte")?;
    let plain = if is_plain(b) { "plain" } else { "not plain" };
    let escaped = Escaped::of(b);
    if escaped.as_slice() == bytes {
        return Ok(format!(in alloc; "itself, {plain}")?);
    }
    let escaped = text_of(alloc, Vec::from_slice(alloc, escaped.as_slice())?)?;
    Ok(format!(in alloc; "{escaped}, {plain}")?)
}
