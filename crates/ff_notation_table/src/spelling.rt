//! Bytes as the table spells them.

use anyhow::{Context, Result};
use ff_value::{Text, Url};
use std::alloc::{AllocError, Global};

/// The bytes of a text in which `%HH` stands for the byte of that value.
pub fn bytes_of(alloc: Global, text: &str) -> Result<Vec<u8>> {
    let mut bytes = Vec::new(alloc);
    let mut parts = text.split('%');
    if let Some(first) = parts.next() {
        bytes.extend_from_slice(first.as_bytes())?;
    }
    for part in parts {
        let digits = part.get(..2).context("two digits after a mark")?;
        bytes.push(u8::from_str_radix(digits, 16)?)?;
        bytes.extend_from_slice(part.get(2..).unwrap_or("").as_bytes())?;
    }
    Ok(bytes)
}

/// Lines, of which the last ends with its newline too, or else a word on it.
pub fn whole_lines(alloc: Global, mut bytes: Vec<u8>) -> Result<String> {
    if bytes.last() != Some(&b'\n') {
        bytes.extend_from_slice(b" and no newline")?;
    }
    text_of(alloc, bytes)
}

/// The bytes as a text.
pub fn text_of(alloc: Global, bytes: Vec<u8>) -> Result<String> {
    match String::from_utf8(bytes) {
        Ok(text) => Ok(text),
        Err(_) => Ok(format!(in alloc; "bytes that are no text")?),
    }
}

/// An address, printed.
pub fn address(alloc: Global, url: &Url) -> Result<String> {
    let mut out = Vec::new(alloc);
    url.print(&mut out)?;
    text_of(alloc, out)
}

/// A text of the notation.
pub fn text(alloc: Global, text: &str) -> Result<Text, AllocError> {
    Text::of_str(alloc, text)
}
