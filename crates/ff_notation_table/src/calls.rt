//! The calls by their words.

use crate::{forms, items, lines, spelling};
use anyhow::{Context, Result, bail};
use ff_gen::{Draws, workload};
use ff_text::MOST_BYTES;
use std::alloc::Global;

/// What the call of a line answers.
pub fn answer(alloc: Global, line: &str) -> Result<String> {
    let (word, given) = line.split_once(' ').unwrap_or((line, ""));
    let bytes = spelling::bytes_of(alloc, given)?;
    if bytes.len() > MOST_BYTES {
        bail!("a line is too long");
    }
    match word {
        "item" => items::item(alloc, &bytes),
        "items" => items::items(alloc, &bytes),
        "nested" => items::nested(alloc, given),
        "quote" => items::quoted(alloc, &bytes),
        "byte" => items::escaped(alloc, &bytes),
        "document" => forms::document(alloc, &bytes),
        "expression" => forms::expression(alloc, &bytes),
        "response" => forms::response(alloc, &bytes),
        "line" => lines::line(alloc, &bytes),
        "draw" => drawn(alloc, given),
        _ => bail!("no call: {word}"),
    }
}

/// The lines that are drawn from a number, so many.
fn drawn(alloc: Global, given: &str) -> Result<String> {
    let (start, many) = given.split_once(' ').context("a start and a number")?;
    let (start, many) = (start.parse::<u64>()?, many.parse::<u32>()?);
    let bytes = workload(alloc, start, many)?;
    let mut draws = Draws::new(start);
    let mut drawn = Vec::new(alloc);
    for _line in 0..many {
        draws.next_line(&mut drawn)?;
    }
    if drawn.as_slice() != bytes.as_slice() {
        bail!("the lines that are drawn one by one are others");
    }
    spelling::whole_lines(alloc, bytes)
}
