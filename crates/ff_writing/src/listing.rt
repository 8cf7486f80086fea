ghost use Rattle.std.specs.Prelude.{◌≡◌, ◌<◌, [], ◌∷◌, ◌++◌, IfOk, OnOk, cond, filter, flat_map};
ghost use Rattle.ff_contract.specs.Lists.{below};
ghost use Rattle.ff_lattice.specs.Order.{leq, name, size};
ghost use Rattle.ff_writing.specs.Checked.{IsListed, check_text, level_line};

use crate::NoMemory;
use crate::whole::write;
use ff_io::Port;
use ff_lattice::Lattice;
use ff_name::Level;
use ff_status::Status;
use std::alloc::Global;

/// Writes for each level which levels it sees. The port is never read.
#[tactic(auto, using(crate::proofs::Writing::put_made))]
pub fn check<P: Port>(alloc: Global, lattice: &Lattice, port: &mut P) -> Status
    ensures { IsListed lattice.now (P.told port.old) (P.told port.new) result }
{
    write(levels_seen(alloc, lattice), port)
}

/// The text for a policy alone: a line for each level in order, with the names of the levels that
/// it sees.
#[tactic(auto, using(crate::proofs::Checking::lines_start, crate::proofs::Checking::lines_more, crate::proofs::Checking::lines_done))]
fn levels_seen(alloc: Global, lattice: &Lattice) -> Result<Vec<u8>, NoMemory>
    ensures { IfOk result (λ text. text.items ≡ check_text lattice.now) }
{
    let mut text = Vec::new(alloc);
    for number in 0..lattice.size() {
        print_level_line(lattice, Level(number), &mut text)?;
    }
    Ok(text)
}

/// Appends the line of a level.
fn print_level_line(lattice: &Lattice, level: Level, text: &mut Vec<u8>) -> Result<(), NoMemory>
    requires { level.0 < size lattice.now }
    ensures { OnOk result (text.new.items ≡ text.old.items ++ level_line lattice.now level.0) }
{
    text.extend_from_slice(b"level ")?;
    text.extend_from_slice(lattice.name(level).as_bytes())?;
    text.extend_from_slice(b" sees")?;
    print_names_below(lattice, level, text)?;
    text.push(b'\n')?;
    Ok(())
}

/// Appends the names of the levels at or below a level, each after a blank.
#[tactic(auto, using(crate::proofs::Checking::names_start, crate::proofs::Checking::names_next, crate::proofs::Checking::names_done))]
fn print_names_below(lattice: &Lattice, level: Level, text: &mut Vec<u8>) -> Result<(), NoMemory>
    requires { level.0 < size lattice.now }
    ensures { OnOk result (text.new.items ≡ text.old.items
        ++ flat_map (λ k. 32 ∷ name lattice.now k)
        (filter (λ k. leq lattice.now k level.0) (below (size lattice.now)))) }
{
    for number in 0..lattice.size() {
        print_if_below(lattice, Level(number), level, text)?;
    }
    Ok(())
}

/// Appends a blank and the name of a level, if it is at or below the other.
fn print_if_below(
    lattice: &Lattice,
    low: Level,
    high: Level,
    text: &mut Vec<u8>,
) -> Result<(), NoMemory>
    requires low { low.0 < size lattice.now }
    requires high { high.0 < size lattice.now }
    ensures { OnOk result (text.new.items ≡ text.old.items
        ++ cond (leq lattice.now low.0 high.0) (32 ∷ name lattice.now low.0) []) }
{
    if !lattice.leq(low, high) {
        return Ok(());
    }
    text.push(b' ')?;
    text.extend_from_slice(lattice.name(low).as_bytes())
}
