//! What is printed of answers.

use anyhow::Result;
use ff_operators::Fail;
use ff_printing::print_expr;
use ff_value::{Expr, NoMemory, Url};
use std::alloc::Global;

/// A script.
pub fn spelled(alloc: Global, body: &Expr) -> Result<String> {
    let mut out = Vec::new(alloc);
    print_expr(body, &mut out)?;
    Ok(String::from_utf8(out)?)
}

/// An address.
pub fn address(alloc: Global, url: &Url) -> Result<String> {
    let mut out = Vec::new(alloc);
    url.print(&mut out)?;
    Ok(String::from_utf8(out)?)
}

/// How a call ended.
pub fn ended(alloc: Global, answer: Result<(), Fail>) -> Result<String, NoMemory> {
    match answer {
        Ok(()) => format!(in alloc; "done"),
        Err(fail) => refused(alloc, fail),
    }
}

/// Why a call was refused.
pub fn refused(alloc: Global, fail: Fail) -> Result<String, NoMemory> {
    match fail {
        Fail::Fault(fault) => format!(in alloc; "fault {}", fault.word()),
        Fail::NoMemory => format!(in alloc; "no memory"),
    }
}

/// A number of what it counts, or the word where there is none.
pub fn or_else(
    alloc: Global,
    what: &str,
    number: Option<u32>,
    none: &str,
) -> Result<String, NoMemory> {
    match number {
        Some(number) => format!(in alloc; "{what} {number}"),
        None => format!(in alloc; "{none}"),
    }
}

/// A truth value.
pub fn yes_or_no(yes: bool) -> &'static str {
    if yes { "yes" } else { "no" }
}
