//! Rows that are gathered.
use anyhow::Result;
use ff_lattice::Lattice;
use ff_saved_rows::{Draft, LineFault, read_row};
use ff_text::MOST_BYTES;
use std::alloc::Global;

/// One row more, or what is wrong with the line.
pub fn add(
    alloc: Global,
    draft: &mut Draft,
    line: &str,
    lattice: &Lattice,
) -> Result<Option<String>> {
    let bytes = line.as_bytes();
    if bytes.len() > MOST_BYTES {
        return Ok(Some(format!(in alloc; "too long")?));
    }
    match read_row(alloc, bytes, lattice) {
        Ok(row) => {
            if draft.add(row)? {
                Ok(None)
            } else {
                Ok(Some(format!(in alloc; "belongs to nothing")?))
            }
        }
        Err(fault) => {
            if fault == LineFault::NoMemory {
                return Err(fault.into());
            }
            Ok(Some(format!(in alloc; "no row: {fault}")?))
        }
    }
}

/// A row for each number of a range, or what is wrong with the first that has a fault.
pub fn add_many(
    alloc: Global,
    draft: &mut Draft,
    rest: &str,
    lattice: &Lattice,
) -> Result<Option<String>> {
    let (first, rest) = rest.split_once(' ').unwrap_or((rest, ""));
    let (last, row) = rest.split_once(' ').unwrap_or((rest, ""));
    let from = first.parse::<u32>()?;
    let to = last.parse::<u32>()?;
    for number in from..=to {
        let number = format!(in alloc; "{number}")?;
        let line = row.replace(alloc, '%', number.as_str())?;
        if let Some(wrong) = add(alloc, draft, line.as_str(), lattice)? {
            return Ok(Some(wrong));
        }
    }
    Ok(None)
}
