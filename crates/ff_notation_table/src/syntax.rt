//! Documents, expressions and responses, each read from a line and printed again, or its first
//! fault.
//!
//! A line is `doc`, `expr` or `resp`, a blank, and the item. What is printed for it is the
//! canonical spelling of its value, or the words of the fault with the place of the item at fault,
//! in bytes from 0 after that blank.

use anyhow::{Context, Result, bail};
use ff_printing::{print_doc, print_expr, print_resp};
use ff_reading::{read_doc, read_expr, read_resp};
use ff_text::{MOST_BYTES, Sexp, read};
use ff_value::{Doc, Expr, Resp};
use std::alloc::Global;

/// What is printed for a line.
pub fn answer(alloc: Global, line: &str) -> Result<String> {
    let (sort, item) = line.split_once(' ').context("a sort and an item")?;
    let item = read_item(alloc, item.as_bytes())?;
    match sort {
        "doc" => doc(alloc, &item),
        "expr" => expr(alloc, &item),
        "resp" => resp(alloc, &item),
        _ => bail!("no sort: {sort}"),
    }
}

fn read_item(alloc: Global, bytes: &[u8]) -> Result<Sexp> {
    if bytes.len() > MOST_BYTES {
        bail!("a line is too long");
    }
    Ok(read(alloc, bytes)?)
}

fn doc(alloc: Global, item: &Sexp) -> Result<String> {
    match read_doc(alloc, item) {
        Ok(doc) => printed_doc(alloc, &doc),
        Err(fault) => Ok(format!(in alloc; "{fault}")?),
    }
}

fn printed_doc(alloc: Global, doc: &Doc) -> Result<String> {
    let mut out = Vec::new(alloc);
    print_doc(doc, &mut out)?;
    Ok(String::from_utf8(out)?)
}

fn expr(alloc: Global, item: &Sexp) -> Result<String> {
    match read_expr(alloc, item) {
        Ok(expr) => printed_expr(alloc, &expr),
        Err(fault) => Ok(format!(in alloc; "{fault}")?),
    }
}

fn printed_expr(alloc: Global, expr: &Expr) -> Result<String> {
    let mut out = Vec::new(alloc);
    print_expr(expr, &mut out)?;
    Ok(String::from_utf8(out)?)
}

fn resp(alloc: Global, item: &Sexp) -> Result<String> {
    match read_resp(alloc, item) {
        Ok(resp) => printed_resp(alloc, &resp),
        Err(fault) => Ok(format!(in alloc; "{fault}")?),
    }
}

fn printed_resp(alloc: Global, resp: &Resp) -> Result<String> {
    let mut out = Vec::new(alloc);
    print_resp(resp, &mut out)?;
    Ok(String::from_utf8(out)?)
}
