//! Pieces of bytes that ports are given, and bytes as texts.

use ff_io::MemPort;
use std::alloc::{AllocError, Global};
use std::str;

/// The bytes as a text.
pub fn text_of(bytes: &[u8]) -> &str {
    match str::from_utf8(bytes) {
        Ok(text) => text,
        Err(_) => "bytes that are no text",
    }
}

/// The texts as pieces.
fn pieces_of(alloc: Global, texts: &[&str]) -> Result<Vec<Vec<u8>>, AllocError> {
    let mut pieces = Vec::new(alloc);
    for text in texts {
        pieces.push(Vec::from_slice(alloc, text.as_bytes())?)?;
    }
    Ok(pieces)
}

/// A port of these pieces, whose listed reads and writes fail, and whose writes take two bytes.
pub fn port_of(
    alloc: Global,
    texts: &[&str],
    bad_reads: &[u64],
    bad_writes: &[u64],
) -> Result<MemPort, AllocError> {
    let pieces = pieces_of(alloc, texts)?;
    let bad_reads = Vec::from_slice(alloc, bad_reads)?;
    let bad_writes = Vec::from_slice(alloc, bad_writes)?;
    Ok(MemPort::new(alloc, pieces, bad_reads, bad_writes, 2))
}

/// A port whose pieces are a text, so many times the letter `x`, and another text.
pub fn long_port(
    alloc: Global,
    first: &str,
    letters: usize,
    last: &str,
) -> Result<MemPort, AllocError> {
    let mut pieces = pieces_of(alloc, &[first])?;
    pieces.push(vec![in alloc; b'x'; letters]?)?;
    pieces.push(Vec::from_slice(alloc, last.as_bytes())?)?;
    Ok(MemPort::new(alloc, pieces, Vec::new(alloc), Vec::new(alloc), 2))
}
