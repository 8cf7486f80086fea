//! Lattices and what is none, and sets of levels.
ghost use Rattle.std.specs.Prelude.{◌<◌};
ghost use Rattle.ff_lattice.specs.Order.{size};

use anyhow::{Context, Result};
use ff_lattice::{Lattice, LatticeFault, LevelSet, NoMemory, Pair};
use ff_name::{Level, Text};
use std::alloc::Global;
use std::io;

/// The names in a row of words.
fn texts(alloc: Global, words: &str) -> Result<Vec<Text>, NoMemory> {
    let mut texts = Vec::new(alloc);
    for word in words.split_whitespace() {
        texts.push(Text::of_utf8(alloc, word.as_bytes())?)?;
    }
    Ok(texts)
}

/// The pairs that are written as `low<high`.
fn pairs(alloc: Global, words: &str) -> Result<Vec<Pair>, NoMemory> {
    let mut pairs = Vec::new(alloc);
    for word in words.split_whitespace() {
        if let Some((low, high)) = word.split_once('<') {
            let low = Text::of_utf8(alloc, low.as_bytes())?;
            let high = Text::of_utf8(alloc, high.as_bytes())?;
            pairs.push(Pair { low, high })?;
        }
    }
    Ok(pairs)
}

fn built(alloc: Global, names: &str, below: &str) -> Result<Lattice, LatticeFault> {
    let names = texts(alloc, names)?;
    let below = pairs(alloc, below)?;
    Lattice::build(alloc, &names, &below)
}

/// What is printed for a line of the input.
pub fn answer(alloc: Global, line: &str) -> Result<String> {
    if line.starts_with('#') {
        return Ok(format!(in alloc; "#{line}")?);
    }
    let (names, below) = line.split_once('|').context("names and pairs")?;
    match built(alloc, names, below) {
        Ok(lattice) => Ok(ends(alloc, line, &lattice)?),
        Err(fault) => Ok(words(alloc, line, &fault)?),
    }
}

/// How many levels the lattice has, and which are the lowest and the highest.
fn ends(alloc: Global, line: &str, lattice: &Lattice) -> Result<String, NoMemory> {
    let (bottom, top) = (lattice.name(lattice.bottom()), lattice.name(lattice.top()));
    let (size, bottom, top) = (lattice.size(), bottom.as_str(), top.as_str());
    format!(in alloc; "{line}: a lattice of {size}, from {bottom} to {top}")
}

/// The words of the fault, and the names that it tells.
fn words(alloc: Global, line: &str, fault: &LatticeFault) -> Result<String, NoMemory> {
    match fault {
        LatticeFault::Repeated(name) | LatticeFault::Unknown(name) => {
            format!(in alloc; "{line}: {fault} {}", name.as_str())
        }
        LatticeFault::Cycle(low, high)
        | LatticeFault::NoJoin(low, high)
        | LatticeFault::NoMeet(low, high) => {
            format!(in alloc; "{line}: {fault} {} {}", low.as_str(), high.as_str())
        }
        LatticeFault::NoLevels
        | LatticeFault::TooMany
        | LatticeFault::BadName(_)
        | LatticeFault::NoMemory => format!(in alloc; "{line}: {fault}"),
    }
}

/// What a lattice says of a level and each level, by their numbers.
fn show_level(rt: &HostRuntime, lattice: &Lattice, number: u8) -> io::Result<()>
    requires { number < size lattice.now }
{
    let a = Level(number);
    let name = lattice.name(a);
    let found = lattice.by_name(name.as_bytes()).map(|level| level.0);
    let up = lattice.up(a);
    let (count, least) = (up.len(), up.least().map(|level| level.0));
    println!(rt; "{number} {}, found by its name: {found:?}", name.as_str())?;
    print!(rt; "  {count} at or above it, the least {least:?}:")?;
    for other in 0..lattice.size() {
        if lattice.leq(a, Level(other)) {
            print!(rt; " {other}")?;
        }
    }
    print!(rt; "; joins")?;
    for other in 0..lattice.size() {
        print!(rt; " {}", lattice.join(a, Level(other)).0)?;
    }
    print!(rt; "; meets")?;
    for other in 0..lattice.size() {
        print!(rt; " {}", lattice.meet(a, Level(other)).0)?;
    }
    println!(rt; "")
}

/// Prints all that a lattice says.
fn show_lattice(rt: &HostRuntime, lattice: &Lattice) -> io::Result<()> {
    let (bottom, top) = (lattice.bottom().0, lattice.top().0);
    println!(rt; "{} levels, from {bottom} to {top}", lattice.size())?;
    for number in 0..lattice.size() {
        show_level(rt, lattice, number)?;
    }
    let found = lattice.by_name(b"M").map(|level| level.0);
    println!(rt; "the level M: {found:?}")
}

/// Prints all that the lattice of these names and pairs says.
fn show_built(rt: &HostRuntime, names: &str, below: &str) -> io::Result<()> {
    match built(rt.alloc(), names, below) {
        Ok(lattice) => show_lattice(rt, &lattice),
        Err(fault) => println!(rt; "{fault}"),
    }
}

/// The subsets of four things, `s5` that of the first and the third.
const SUBSETS: &str = "s0 s1 s2 s3 s4 s5 s6 s7 s8 s9 s10 s11 s12 s13 s14 s15";

/// A subset below each that has one thing more.
const SUBSET_PAIRS: &str =
    "s0<s1 s0<s2 s0<s4 s0<s8 s1<s3 s1<s5 s1<s9 s2<s3 s2<s6 s2<s10 s3<s7 s3<s11 s4<s5 \
    s4<s6 s4<s12 s5<s7 s5<s13 s6<s7 s6<s14 s7<s15 s8<s9 s8<s10 s8<s12 s9<s11 s9<s13 \
    s10<s11 s10<s14 s11<s15 s12<s13 s12<s14 s13<s15 s14<s15";

/// Prints what sets of levels answer.
fn show_sets(rt: &HostRuntime) -> io::Result<()> {
    let set = LevelSet::empty()
        .with(Level(15))
        .with(Level(3))
        .with(Level(3));
    let (three, fifteen, zero) = (set.has(Level(3)), set.has(Level(15)), set.has(Level(0)));
    let (count, least) = (set.len(), set.least().map(|level| level.0));
    let none = LevelSet::empty().least().map(|level| level.0);
    println!(rt; "of 15, 3 and 3: has 3 {three}, has 15 {fifteen}, has 0 {zero}")?;
    println!(rt; "it has {count} levels, the least {least:?}; the least of none {none:?}")
}

/// Prints what lattices and sets of levels say.
pub fn show(rt: &HostRuntime) -> Result<()> {
    println!(rt; "## The two levels")?;
    let lattice = Lattice::two(rt.alloc())?;
    show_lattice(rt, &lattice)?;
    println!(rt; "## L and H with L below H, built")?;
    show_built(rt, "L H", "L<H")?;
    println!(rt; "## H and L with L below H, built")?;
    show_built(rt, "H L", "L<H")?;
    println!(rt; "## The subsets of four things")?;
    show_built(rt, SUBSETS, SUBSET_PAIRS)?;
    println!(rt; "## Sets of levels")?;
    show_sets(rt)?;
    Ok(())
}
