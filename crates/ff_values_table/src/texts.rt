//! The lines of the input.
//!
//! | Sort | The text is read as |
//! |---|---|
//! | `url` | an address, which is printed from a copy |
//! | `word` | a text, a name and a domain |
//! | `str` | a text of a `str` |
//! | `nat`, `num` | a natural number, a whole number |
//! | `slashes` | the number of slashes of a request text |
//! | `letters` | the number of letters of a name, and of a domain |
//! | `labels` | the number of bytes of a domain of labels of one letter, or two in the last |

use anyhow::{Context, Result, bail};
use ff_name::{Domain, Name, Text, Url, is_domain, is_name};
use ff_number::{Digits, print_nat, print_num, read_nat, read_num};
use std::alloc::Global;
use std::str;

/// What is printed for a line.
pub fn answer(alloc: Global, line: &str) -> Result<String> {
    let (sort, text) = line.split_once(' ').context("a sort and a text")?;
    match sort {
        "url" => url(alloc, text),
        "word" => word(alloc, text),
        "str" => str_text(alloc, text),
        "nat" => nat(alloc, text),
        "num" => num(alloc, text),
        "#" => Ok(format!(in alloc; "## {text}")?),
        _ => counted(alloc, sort, text),
    }
}

/// What is printed for a sort with a count.
fn counted(alloc: Global, sort: &str, text: &str) -> Result<String> {
    let count = usize::from(text.parse::<u16>()?);
    match sort {
        "slashes" => slashes(alloc, count),
        "letters" => letters(alloc, count),
        "labels" => labels(alloc, count),
        _ => bail!("no sort: {sort}"),
    }
}

fn url(alloc: Global, text: &str) -> Result<String> {
    match Url::read(alloc, text.as_bytes()) {
        Ok(url) => parts_of(alloc, text, &url),
        Err(fault) => Ok(format!(in alloc; "{text}: {fault}")?),
    }
}

/// What is printed for the address of a text.
fn parts_of(alloc: Global, text: &str, url: &Url) -> Result<String> {
    let again = printed(alloc, url)?;
    match url {
        Url::Blank => Ok(format!(in alloc; "{text}: {again}")?),
        Url::At(domain, request) => {
            let (domain, request) = (domain.text().as_str(), request.as_str());
            Ok(format!(in alloc; "{text}: {again}, of {domain} and {request}")?)
        }
    }
}

/// The address as its copy is printed.
fn printed(alloc: Global, url: &Url) -> Result<String> {
    let mut out = Vec::new(alloc);
    url.copy()?.print(&mut out)?;
    Ok(String::from_utf8(out)?)
}

fn word(alloc: Global, word: &str) -> Result<String> {
    let text = text_of(alloc, word.as_bytes())?;
    let name = name_of(alloc, word.as_bytes())?;
    let domain = domain_of(alloc, word.as_bytes())?;
    Ok(format!(in alloc; "{word:?}: {text}, {name}, {domain}")?)
}

/// The bytes of a copy of the text that these are, or that they are none.
fn text_of(alloc: Global, bytes: &[u8]) -> Result<String> {
    match Text::of(alloc, bytes)? {
        Some(text) => Ok(format!(in alloc; "text {:?}", text.copy()?.as_str())?),
        None => Ok(String::from_str(alloc, "no text")?),
    }
}

/// The same of a name.
fn name_of(alloc: Global, bytes: &[u8]) -> Result<String> {
    match Name::of(alloc, bytes)? {
        Some(name) => Ok(format!(in alloc; "name {}", spelled(name.copy()?.as_bytes()))?),
        None => Ok(String::from_str(alloc, "no name")?),
    }
}

/// The same of a domain.
fn domain_of(alloc: Global, bytes: &[u8]) -> Result<String> {
    match Domain::of(alloc, bytes)? {
        Some(domain) => Ok(format!(in alloc; "domain {}", spelled(domain.copy()?.as_bytes()))?),
        None => Ok(String::from_str(alloc, "no domain")?),
    }
}

/// The bytes as a text.
fn spelled(bytes: &[u8]) -> &str {
    match str::from_utf8(bytes) {
        Ok(text) => text,
        Err(_) => "bytes that are no text",
    }
}

/// Prints what bytes that are no text are read as.
pub fn show_bytes(rt: &HostRuntime) -> Result<()> {
    let text = text_of(rt.alloc(), b"\xff")?;
    let name = name_of(rt.alloc(), b"\xff")?;
    let domain = domain_of(rt.alloc(), b"\xff")?;
    println!(rt; "## A byte that is no text")?;
    println!(rt; "{text}, {name}, {domain}")?;
    Ok(())
}

fn str_text(alloc: Global, word: &str) -> Result<String> {
    let text = Text::of_str(alloc, word)?.copy()?;
    let other = Text::of_utf8(alloc, word.as_bytes())?;
    let same = text == other;
    Ok(format!(in alloc;
        "{:?} of {} bytes: {same}",
        text.as_str(),
        text.as_bytes().len()
    )?)
}

fn nat(alloc: Global, text: &str) -> Result<String> {
    let Some(n) = read_nat(text.as_bytes()) else {
        return Ok(format!(in alloc; "{text:?}: no natural number")?);
    };
    let mut out = Vec::from_slice(alloc, b"n")?;
    print_nat(n, &mut out)?;
    let digits = Digits::of(n);
    let digits = spelled(digits.as_slice());
    Ok(format!(in alloc; "{text:?}: {n}, printed {}, digits {digits}", spelled(&out))?)
}

fn num(alloc: Global, text: &str) -> Result<String> {
    let Some(n) = read_num(text.as_bytes()) else {
        return Ok(format!(in alloc; "{text:?}: no whole number")?);
    };
    let mut out = Vec::from_slice(alloc, b"n")?;
    print_num(n, &mut out)?;
    let digits = Digits::of_num(n);
    let digits = spelled(digits.as_slice());
    Ok(format!(in alloc; "{text:?}: {n}, printed {}, digits {digits}", spelled(&out))?)
}

fn slashes(alloc: Global, count: usize) -> Result<String> {
    let mut address = Vec::from_slice(alloc, b"http://a.com")?;
    for _ in 0..count {
        address.push(b'/')?;
    }
    match Url::read(alloc, &address) {
        Ok(_url) => Ok(format!(in alloc; "{count} slashes: an address")?),
        Err(fault) => Ok(format!(in alloc; "{count} slashes: {fault}")?),
    }
}

fn letters(alloc: Global, count: usize) -> Result<String> {
    let letters = vec![in alloc; b'a'; count]?;
    let (name, domain) = (is_name(&letters), is_domain(&letters));
    Ok(format!(in alloc; "{count} letters: a name {name}, a domain {domain}")?)
}

fn labels(alloc: Global, count: usize) -> Result<String> {
    let mut labels = Vec::new(alloc);
    for place in 0..count {
        labels.push(letter_or_dot(place, count))?;
    }
    let domain = is_domain(&labels);
    Ok(format!(in alloc; "{count} bytes of letters and dots: a domain {domain}")?)
}

/// A dot at each odd place but the last.
fn letter_or_dot(place: usize, count: usize) -> u8 {
    let last = count.saturating_sub(1);
    if place % 2 == 1 && place < last {
        b'.'
    } else {
        b'a'
    }
}
