//! A shelf in memory, and the front of a file on it.

use super::given::text_of;
use ff_io::{Failed, MemShelf, Shelf, fetch_front};
use std::alloc::{AllocError, Global};
use std::collections::BTreeMap;
use std::io;

/// A shelf with the file `p.json`, which holds `abc`, whose listed fetches fail.
fn shelf_of(alloc: Global, bad_fetches: &[u64]) -> Result<MemShelf, AllocError> {
    let mut files = BTreeMap::new(alloc);
    files.insert(
        String::from_str(alloc, "p.json")?,
        Vec::from_slice(alloc, b"abc")?,
    )?;
    Ok(MemShelf::new(files, Vec::from_slice(alloc, bad_fetches)?))
}

/// Prints what a fetch with room for two bytes gives.
pub fn show_fetch<S: Shelf>(
    rt: &HostRuntime,
    shelf: &mut S,
    name: &str,
    at: u64,
) -> io::Result<()> {
    let mut into = [0; 2];
    match shelf.fetch(name, at, &mut into) {
        Ok(n) => println!(rt; "{name} from {at}: {:?}", text_of(&into[..n])),
        Err(Failed) => println!(rt; "{name} from {at}: failed"),
    }
}

fn show_fetches(rt: &HostRuntime) -> io::Result<()> {
    let mut shelf = shelf_of(rt.alloc(), &[3])?;
    for (name, at) in [
        ("p.json", 0),
        ("p.json", 2),
        ("p.json", 0),
        ("p.json", 3),
        ("p.json", 4),
        ("q.json", 0),
    ] {
        show_fetch(rt, &mut shelf, name, at)?;
    }
    Ok(())
}

fn show_front(rt: &HostRuntime, bad_fetches: &[u64], name: &str, limit: usize) -> io::Result<()> {
    let mut shelf = shelf_of(rt.alloc(), bad_fetches)?;
    match fetch_front(rt.alloc(), &mut shelf, name, limit.max(1)) {
        Ok(bytes) => println!(rt; "{limit} bytes of {name}: {:?}", text_of(&bytes)),
        Err(fail) => println!(rt; "{limit} bytes of {name}: {fail}"),
    }
}

/// Prints what fetches from a shelf in memory give.
pub fn show(rt: &HostRuntime) -> io::Result<()> {
    println!(rt; "## Fetches from a shelf whose file p.json holds abc; the third fails")?;
    show_fetches(rt)?;
    println!(rt; "## The front of a file")?;
    for (name, limit) in [("p.json", 1), ("p.json", 3), ("p.json", 9), ("q.json", 9)] {
        show_front(rt, &[], name, limit)?;
    }
    println!(rt; "## The front of a file whose second fetch fails")?;
    for limit in [3, 4] {
        show_front(rt, &[2], "p.json", limit)?;
    }
    Ok(())
}
