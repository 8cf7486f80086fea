//! Cookies of domains.

use crate::reading::{domain, parted, text};
use crate::words::ended;
use anyhow::{Result, bail};
use ff_contract::Steps;
use ff_net::Jar;
use ff_printing::print_pairs;
use std::alloc::Global;
use std::sync::ledger::Ledger;

/// What a line gives.
pub fn take<C: Ledger>(
    alloc: Global,
    jar: &mut Jar,
    line: &str,
    copies: &mut Steps<C>,
) -> Result<String> {
    let (word, rest) = parted(line);
    match word {
        "put" => put(alloc, jar, rest, copies),
        "get" => get(alloc, jar, rest),
        "delete" => delete(alloc, jar, rest, copies),
        "all" => all(alloc, jar, rest),
        _ => bail!("no line of cookies: {word}"),
    }
}

fn put<C: Ledger>(
    alloc: Global,
    jar: &mut Jar,
    rest: &str,
    copies: &mut Steps<C>,
) -> Result<String> {
    let (of, rest) = parted(rest);
    let (key, value) = parted(rest);
    let of = domain(alloc, of)?;
    let key = text(alloc, key)?;
    let value = text(alloc, value)?;
    Ok(ended(alloc, jar.put(&of, &key, &value, copies))?)
}

fn get(alloc: Global, jar: &Jar, rest: &str) -> Result<String> {
    let (of, key) = parted(rest);
    let of = domain(alloc, of)?;
    match jar.get(&of, key.as_bytes()) {
        Some(value) => Ok(format!(in alloc; "{:?}", value.as_str())?),
        None => Ok(format!(in alloc; "none")?),
    }
}

fn delete<C: Ledger>(
    alloc: Global,
    jar: &mut Jar,
    rest: &str,
    copies: &mut Steps<C>,
) -> Result<String> {
    let (of, key) = parted(rest);
    let of = domain(alloc, of)?;
    jar.delete(&of, key.as_bytes(), copies)?;
    Ok(format!(in alloc; "done")?)
}

fn all(alloc: Global, jar: &Jar, rest: &str) -> Result<String> {
    let of = domain(alloc, rest)?;
    let mut out = Vec::new(alloc);
    print_pairs(&jar.of(&of)?, &mut out)?;
    Ok(String::from_utf8(out)?)
}
