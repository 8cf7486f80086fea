//! Scripts over the stores of a browser, one reduction after another: what was put, and what came
//! of it: the value, the fault, that the page of the script is gone, or that the script goes on;
//! and how many reductions were made.
//!
//! - `# ..` is a heading.
//! - `open ADDRESS` begins with new stores, in which one window shows an empty page of the address.
//!   `also ADDRESS` opens another window in the stores of the line before. Both keep the stores.
//! - `EXPRESSION` is a script of the first window's page. It runs over the stores that were kept,
//!   and what it changes is forgotten.
//! - `= EXPRESSION` keeps the stores that it leaves.
//! - `& EXPRESSION` goes on with the stores that the line before left.
//! - `@ PLACE EXPRESSION` does so as a script of the page of the window at that place.
//! - `mass` prints the mass of the stores that the line before left, `ready` takes out of them the
//!   first script that may run, and `settle` puts the pages that were touched.
//! - `call ..` is a single call of the stores that the line before left.
//! - `task EXPRESSION` makes a task of a script of the first window's page, forks it with its
//!   stores, and works once on each.
//!
//! A text of more than 60 bytes is printed as `*` and its length. Of many outputs the last are
//! printed.

use crate::setting::{open, page_at};
use crate::{calls, running, shown, tasks};
use anyhow::{Context, Result, bail};
use ff_contract::Steps;
use ff_script::read_body;
use ff_stores::Stores;
use std::alloc::Global;
use std::sync::ledger::Ledger;

/// The stores that were kept, and those that the line before left.
#[derive(Drop)]
pub struct Scripts {
    kept: Stores,
    left: Stores,
}

impl Scripts {
    /// New stores.
    pub fn new(alloc: Global) -> Scripts {
        Scripts {
            kept: Stores::new(alloc),
            left: Stores::new(alloc),
        }
    }
}

/// Does what a line says.
pub fn follow<C: Ledger>(
    rt: &HostRuntime,
    alloc: Global,
    table: &mut Scripts,
    line: &str,
    copies: &mut Steps<C>,
) -> Result<()> {
    let (word, rest) = line.split_once(' ').unwrap_or((line, ""));
    match word {
        "#" => Ok(()),
        "open" => begin(rt, alloc, table, rest, copies),
        "also" => go_on(rt, alloc, table, rest, copies),
        "=" => keep(rt, alloc, table, rest, copies),
        "&" => script(rt, alloc, &mut table.left, 0, rest, copies),
        "@" => other(rt, alloc, &mut table.left, rest, copies),
        "mass" => mass(rt, &table.left),
        "settle" => settle(rt, alloc, &mut table.left),
        "ready" => ready(rt, alloc, &mut table.left, copies),
        "call" => calls::follow(rt, alloc, &mut table.left, rest, copies),
        "task" => tasks::show(rt, alloc, &mut table.left, rest, copies),
        _ => fresh(rt, alloc, table, line, copies),
    }
}

fn begin<C: Ledger>(
    rt: &HostRuntime,
    alloc: Global,
    table: &mut Scripts,
    address: &str,
    copies: &mut Steps<C>,
) -> Result<()> {
    table.left = Stores::new(alloc);
    go_on(rt, alloc, table, address, copies)
}

fn go_on<C: Ledger>(
    rt: &HostRuntime,
    alloc: Global,
    table: &mut Scripts,
    address: &str,
    copies: &mut Steps<C>,
) -> Result<()> {
    let mut outs = Vec::new(alloc);
    open(alloc, &mut table.left, address, &mut outs, copies)?;
    table.kept = table.left.fork(copies)?;
    shown::outputs(rt, alloc, &outs)
}

fn fresh<C: Ledger>(
    rt: &HostRuntime,
    alloc: Global,
    table: &mut Scripts,
    expression: &str,
    copies: &mut Steps<C>,
) -> Result<()> {
    table.left = table.kept.fork(copies)?;
    script(rt, alloc, &mut table.left, 0, expression, copies)
}

fn keep<C: Ledger>(
    rt: &HostRuntime,
    alloc: Global,
    table: &mut Scripts,
    expression: &str,
    copies: &mut Steps<C>,
) -> Result<()> {
    fresh(rt, alloc, table, expression, copies)?;
    table.kept = table.left.fork(copies)?;
    Ok(())
}

fn other<C: Ledger>(
    rt: &HostRuntime,
    alloc: Global,
    stores: &mut Stores,
    rest: &str,
    copies: &mut Steps<C>,
) -> Result<()> {
    let (place, expression) = rest.split_once(' ').context("a place and an expression")?;
    match place.parse::<u32>() {
        Ok(place) => script(rt, alloc, stores, place, expression, copies),
        Err(_) => bail!("no place: {place}"),
    }
}

/// Runs a script of the page of the window at a place, and prints what came of it.
fn script<C: Ledger>(
    rt: &HostRuntime,
    alloc: Global,
    stores: &mut Stores,
    place: u32,
    expression: &str,
    copies: &mut Steps<C>,
) -> Result<()> {
    let page = page_at(stores, place)?;
    let body = read_body(alloc, expression)?;
    let mut outs = Vec::new(alloc);
    let (end, reductions) = running::run(alloc, stores, page, &body, &mut outs, copies)?;
    shown::outputs(rt, alloc, &outs)?;
    shown::end(rt, &end, reductions)?;
    Ok(())
}

fn mass(rt: &HostRuntime, stores: &Stores) -> Result<()> {
    println!(rt; "  {}", stores.mass())?;
    Ok(())
}

fn settle(rt: &HostRuntime, alloc: Global, stores: &mut Stores) -> Result<()> {
    let mut outs = Vec::new(alloc);
    stores.settle(&mut outs)?;
    shown::outputs(rt, alloc, &outs)
}

fn ready<C: Ledger>(
    rt: &HostRuntime,
    alloc: Global,
    stores: &mut Stores,
    copies: &mut Steps<C>,
) -> Result<()> {
    match stores.take_ready(copies)? {
        Some((page, body)) => {
            let body = shown::expression(alloc, body.get())?;
            println!(rt; "  page {}: {body}", page.0)?;
        }
        None => println!(rt; "  none")?,
    }
    Ok(())
}
