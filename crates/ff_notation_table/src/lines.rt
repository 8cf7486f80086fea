//! Lines of a trace, with the levels L and H.

use crate::spelling::whole_lines;
use anyhow::{Result, bail};
use ff_lattice::Lattice;
use ff_text::MOST_BYTES;
use ff_trace::{Room, print_input, read_input};
use ff_value::{Input, NoMemory};
use std::alloc::Global;

/// The input of a line, which equals its copy, printed, or the line's first fault.
pub fn line(alloc: Global, bytes: &[u8]) -> Result<String> {
    if bytes.len() > MOST_BYTES {
        bail!("a line is too long");
    }
    let lattice = Lattice::two(alloc)?;
    let mut room = Room::new(alloc);
    match read_input(alloc, &mut room, bytes, &lattice) {
        Ok(Some(input)) => {
            if !is_copied(&input)? {
                bail!("an input isn't its copy");
            }
            let mut out = Vec::new(alloc);
            print_input(&input, &lattice, &mut out)?;
            whole_lines(alloc, out)
        }
        Ok(None) => Ok(format!(in alloc; "no input")?),
        Err(fault) => Ok(format!(in alloc; "{fault}")?),
    }
}

fn is_copied(input: &Input) -> Result<bool, NoMemory> {
    let copy = input.copy()?;
    Ok(copy == *input)
}
