//! The lines of a text by the levels that head them.
ghost use Rattle.std.specs.Prelude.{◌≡◌, ◌≤◌, ◌<◌, ◌+◌, ◌++◌, ◌∷◌, length, bytes_eq, OnOk};
ghost use Rattle.ff_confinement.specs.Runs.{joined};
ghost use Rattle.ff_lattice.specs.Order.{size};
ghost use Rattle.ff_session.specs.OwnLines.{own_lines};
ghost use Rattle.ff_writing.specs.Generated.{tally_line, summary};

use crate::NoMemory;
use ff_lattice::Lattice;
use ff_name::Level;
use ff_number::print_nat;
use ff_session::{is_headed, split_inclusive};

/// How many lines there are, and how many bytes they have together.
#[derive(Clone, Copy)]
struct Tally {
    lines: usize,
    bytes: usize,
}

/// Appends the number of inputs, and for each level in order how many lines of the text it has, and
/// how many bytes.
#[tactic(auto, using(crate::proofs::Tallies::sum_start, crate::proofs::Tallies::sum_more, crate::proofs::Tallies::sum_done))]
pub fn print_summary(
    lattice: &Lattice,
    inputs: u32,
    text: &[u8],
    out: &mut Vec<u8>,
) -> Result<(), NoMemory>
    ensures { OnOk result (out.new.items ≡ out.old.items ++ summary lattice.now inputs text.now) }
{
    out.extend_from_slice(b"inputs ")?;
    print_nat(u64::from(inputs), out)?;
    out.push(b'\n')?;
    for number in 0..lattice.size() {
        print_tally(lattice, Level(number), text, out)?;
    }
    Ok(())
}

/// Appends the line of a level.
fn print_tally(
    lattice: &Lattice,
    level: Level,
    text: &[u8],
    out: &mut Vec<u8>,
) -> Result<(), NoMemory>
    requires { level.0 < size lattice.now }
    ensures { OnOk result (out.new.items ≡ out.old.items
        ++ tally_line lattice.now text.now level.0) }
{
    let name = lattice.name(level).as_bytes();
    let tally = tally_of(text, name);
    out.extend_from_slice(name)?;
    out.push(b' ')?;
    print_nat(tally.lines as u64, out)?;
    out.push(b' ')?;
    print_nat(tally.bytes as u64, out)?;
    out.push(b'\n')?;
    Ok(())
}

/// The tally of the lines that begin with a word.
fn tally_of(text: &[u8], word: &[u8]) -> Tally
    ensures lines { result.lines ≡ length (own_lines word.now text.now) }
    ensures bytes { result.bytes ≡ length (joined (own_lines word.now text.now)) }
{
    let mut tally = Tally { lines: 0, bytes: 0 };
    let mut rest = text;
    'lines: while !rest.is_empty() {
        let (line, more) = split_inclusive(rest);
        if is_headed(line, word) {
            tally.lines += 1;
            tally.bytes += line.len();
        }
        rest = more;
    }
    tally
}
