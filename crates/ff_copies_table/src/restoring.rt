//! Pools that are made of classes, with a new browser for each: what is printed is how many levels
//! are one copy with each level, or that no pool has these classes.
ghost use Rattle.std.specs.Prelude.{◌<◌, ◌≤◌, All, IfOk};
ghost use Rattle.ff_pool.specs.Restored.{IsReady};

use ff_core::{Browser, Reactor};
use ff_lattice::LevelSet;
use ff_name::Level;
use ff_pool::{Browsers, NoMemory, Pool};
use std::alloc::Global;
use std::io;

/// The fuel that an input brings.
const FUEL: u32 = 5;

/// The levels that the digits of a word name.
fn class_of(word: &str) -> LevelSet {
    let mut class = LevelSet::empty();
    for byte in word.as_bytes() {
        if *byte >= b'0' && *byte <= b'9' {
            class = class.with(Level(*byte - b'0'));
        }
    }
    class
}

/// The classes that these words tell, each by the digits of its levels.
fn classes_of(alloc: Global, words: &str) -> Result<Vec<LevelSet>, NoMemory> {
    let mut classes = Vec::new(alloc);
    for word in words.split(' ') {
        classes.push(class_of(word))?;
    }
    Ok(classes)
}

/// So many new browsers.
fn browsers_of(alloc: Global, count: u8) -> Result<Browsers<Browser>, NoMemory>
    ensures { IfOk result (λ browsers. All (IsReady 5) browsers) }
{
    let mut browsers = Vec::new(alloc);
    for _ in 0..count {
        browsers.push(Browser::new(alloc, FUEL))?;
    }
    Ok(Browsers::from_vec(browsers))
}

/// A pool of so many levels and browsers, where there is one.
fn restored(alloc: Global, n: u8, count: u8, words: &str) -> Result<Option<Pool<Browser>>, NoMemory>
    requires { n ≤ 9 }
{
    let classes = classes_of(alloc, words)?;
    let browsers = browsers_of(alloc, count)?;
    Pool::restore(alloc, n, FUEL, classes.as_slice(), browsers)
}

/// The numbers of levels and of browsers that a line begins with, and the words after them.
fn parts_of(line: &str) -> Option<(u8, u8, &str)> {
    let (n, rest) = line.split_once(' ')?;
    let (count, words) = rest.split_once(' ')?;
    Some((n.parse::<u8>().ok()?, count.parse::<u8>().ok()?, words))
}

/// Prints how many levels are one copy with each level of a pool, and whether its browser is quiet.
fn show_pool(rt: &HostRuntime, pool: &Pool<Browser>) -> io::Result<()> {
    if pool.spent() {
        return println!(rt; " spent");
    }
    for l in 0..pool.size() {
        let members = pool.members(Level(l)).len();
        let quiet = pool.browser(Level(l)).quiet();
        print!(rt; " {members} {quiet}")?;
    }
    println!(rt; "")
}

/// Prints what the classes of a line make.
fn show_line(rt: &HostRuntime, line: &str) -> io::Result<()> {
    print!(rt; "{line}:")?;
    match parts_of(line) {
        Some((n, count, words)) if n <= 9 => match restored(rt.alloc(), n, count, words) {
            Ok(Some(pool)) => show_pool(rt, &pool),
            Ok(None) => println!(rt; " none"),
            Err(_) => println!(rt; " no memory"),
        },
        _ => println!(rt; " no line"),
    }
}

/// Prints what the classes of each line make.
pub fn show(rt: &HostRuntime, lines: &[String]) -> io::Result<()> {
    for line in lines {
        show_line(rt, line.as_str())?;
    }
    Ok(())
}
