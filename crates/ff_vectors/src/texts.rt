//! Texts as lines.
use std::alloc::{AllocError, Global};
use std::str;

/// The lines of a text that are of a level.
pub(crate) fn lines_of(alloc: Global, text: &[u8], level: &str) -> Result<Vec<u8>, AllocError> {
    let mut lines = Vec::new(alloc);
    for line in text.split_inclusive(|byte| *byte == b'\n') {
        if is_of(line, level) {
            lines.extend_from_slice(line)?;
        }
    }
    Ok(lines)
}

/// Whether a line begins with the name of a level and a blank.
fn is_of(line: &[u8], level: &str) -> bool {
    match line.strip_prefix(level.as_bytes()) {
        Some(rest) => rest.starts_with(b" "),
        None => false,
    }
}

/// How many newlines there are.
pub(crate) fn count_lines(text: &[u8]) -> usize {
    text.iter().filter(|byte| **byte == b'\n').count()
}

/// The text without so many lines at its front.
pub(crate) fn without_lines(text: &str, lines: usize) -> &str {
    let mut rest = text;
    for _ in 0..lines {
        if let Some((_line, more)) = rest.split_once('\n') {
            rest = more;
        }
    }
    rest
}

/// The bytes as a text.
pub(crate) fn text_of(bytes: &[u8]) -> &str {
    match str::from_utf8(bytes) {
        Ok(text) => text,
        Err(_) => "bytes that are no text",
    }
}

/// Whether a trace can stop after so many bytes: at its front, and behind each newline.
pub(crate) fn is_stop(trace: &[u8], length: usize) -> bool {
    match length.checked_sub(1) {
        Some(last) => trace.get(last) == Some(&b'\n'),
        None => true,
    }
}

/// What was put before a saved text, and that text.
pub(crate) fn parts_of(alloc: Global, put: &[u8]) -> Result<(Vec<u8>, Vec<u8>), AllocError> {
    let mut before = Vec::new(alloc);
    let mut saved = Vec::new(alloc);
    let mut is_saved = false;
    for line in put.split_inclusive(|byte| *byte == b'\n') {
        if line == b"ffox-saved 1\n".as_slice() {
            is_saved = true;
        }
        if is_saved {
            saved.extend_from_slice(line)?;
        } else {
            before.extend_from_slice(line)?;
        }
    }
    Ok((before, saved))
}

/// The text without what stands behind its last newline.
pub(crate) fn without_last_line(text: &[u8]) -> &[u8] {
    let mut rest = text;
    for _ in 0..text.len() {
        match rest.split_last() {
            Some((last, front)) if *last != b'\n' => rest = front,
            _ => return rest,
        }
    }
    rest
}
