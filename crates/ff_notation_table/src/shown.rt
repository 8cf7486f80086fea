//! Pages and cookies that are printed, and are equal to their copies.

use crate::spelling::{text, text_of};
use anyhow::{Result, bail};
use ff_printing::{print_pairs, print_shown};
use ff_value::{NoMemory, Pair, Pairs, Shown, ShownPart, Url};
use std::alloc::Global;

/// Prints the rows.
pub fn show<R: Print>(rt: &R, alloc: Global) -> Result<()> {
    println!(rt; "# A page, printed after a byte that stands before it")?;
    show_page(rt, alloc, &page(alloc)?)?;
    println!(rt; "# No key, one key, and two of which one is empty")?;
    show_pairs(rt, alloc, &[])?;
    show_pairs(rt, alloc, &[("k", "v\"")])?;
    show_pairs(rt, alloc, &[("k", "v\""), ("", "")])
}

fn show_page<R: Print>(rt: &R, alloc: Global, page: &Shown) -> Result<()> {
    if !are_parts_copied(page.as_slice())? {
        bail!("a part of a page isn't its copy");
    }
    let mut out = Vec::new(alloc);
    out.push(b'>')?;
    print_shown(page, &mut out)?;
    println!(rt; "  {}", text_of(alloc, out)?)?;
    Ok(())
}

fn are_parts_copied(parts: &[ShownPart]) -> Result<bool, NoMemory> {
    for part in parts {
        if !is_part_copied(part)? {
            return Ok(false);
        }
    }
    Ok(true)
}

fn is_part_copied(part: &ShownPart) -> Result<bool, NoMemory> {
    let copy = part.copy()?;
    Ok(copy == *part)
}

/// A link, a division of a text box and a button, a text, a text box and a button.
fn page(alloc: Global) -> Result<Shown> {
    let mut parts = Vec::new(alloc);
    parts.push(ShownPart::TextBox(text(alloc, "a\nb")?))?;
    parts.push(ShownPart::Button(text(alloc, "ok")?))?;
    let url = Url::read(alloc, b"http://a.com/p")?;
    let mut shown = Vec::new(alloc);
    shown.push(ShownPart::Link(url, text(alloc, "go")?))?;
    shown.push(ShownPart::Div(Shown::from_vec(alloc, parts)?))?;
    shown.push(ShownPart::Text(text(alloc, "t")?))?;
    shown.push(ShownPart::TextBox(text(alloc, "b")?))?;
    shown.push(ShownPart::Button(text(alloc, "g")?))?;
    Ok(Shown::from_vec(alloc, shown)?)
}

fn show_pairs<R: Print>(rt: &R, alloc: Global, pairs: &[(&str, &str)]) -> Result<()> {
    let pairs = pairs_of(alloc, pairs)?;
    if !are_pairs_copied(pairs.as_slice())? {
        bail!("a key with its value isn't its copy");
    }
    let mut out = Vec::new(alloc);
    print_pairs(&pairs, &mut out)?;
    println!(rt; "  {}", text_of(alloc, out)?)?;
    Ok(())
}

fn are_pairs_copied(pairs: &[Pair]) -> Result<bool, NoMemory> {
    for pair in pairs {
        if !is_pair_copied(pair)? {
            return Ok(false);
        }
    }
    Ok(true)
}

fn is_pair_copied(pair: &Pair) -> Result<bool, NoMemory> {
    let copy = pair.copy()?;
    Ok(copy == *pair)
}

/// Keys and values.
pub fn pairs_of(alloc: Global, pairs: &[(&str, &str)]) -> Result<Pairs, NoMemory> {
    let mut list = Vec::new(alloc);
    for (key, value) in pairs {
        list.push(pair(alloc, key, value)?)?;
    }
    Pairs::from_vec(alloc, list)
}

fn pair(alloc: Global, key: &str, value: &str) -> Result<Pair, NoMemory> {
    let key = text(alloc, key)?;
    let value = text(alloc, value)?;
    Ok(Pair { key, value })
}
