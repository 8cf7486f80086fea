//! A task and its fork.
ghost use Rattle.std.specs.Prelude.{◌<◌, IfOk};
ghost use Rattle.ff_tree.specs.Spelled.{IsWellSpelledExpr};
ghost use Rattle.ff_machine.specs.Valid.{IsTask};

use crate::setting::page_at;
use crate::shown;
use anyhow::{Result, bail};
use ff_contract::Steps;
use ff_script::read_body;
use ff_step::Task;
use ff_stores::Stores;
use ff_value::Body;
use std::alloc::Global;
use std::sync::ledger::Ledger;

/// Makes a task of a script of the first window's page, forks it with its stores, and works once on
/// each. Prints for which page each is, whether it goes on, and what it put.
pub fn show<C: Ledger>(
    rt: &HostRuntime,
    alloc: Global,
    stores: &mut Stores,
    expression: &str,
    copies: &mut Steps<C>,
) -> Result<()> {
    let body = read_body(alloc, expression)?;
    let mut task = started(alloc, stores, &body)?;
    let mut fork = task.fork(alloc)?;
    let mut other = stores.fork(copies)?;
    work(rt, alloc, &mut task, stores, copies)?;
    work(rt, alloc, &mut fork, &mut other, copies)
}

/// The task of a script of the first window's page.
fn started(alloc: Global, stores: &Stores, body: &Body) -> Result<Task>
    requires { IsWellSpelledExpr body.now }
    ensures { IfOk result (IsTask stores.now) }
{
    let page = page_at(stores, 0)?;
    let windows = stores.windows();
    if page.0 >= windows.next_page().0 {
        bail!("no page");
    }
    let act = windows.act_of(page);
    Ok(Task::script(alloc, page, act, body)?)
}

/// Works once on a task, and prints what comes of it.
fn work<C: Ledger>(
    rt: &HostRuntime,
    alloc: Global,
    task: &mut Task,
    stores: &mut Stores,
    copies: &mut Steps<C>,
) -> Result<()>
    requires { IsTask stores.old task.old }
{
    let mut outs = Vec::new(alloc);
    let goes_on = task.work(alloc, stores, &mut outs, copies)?;
    println!(rt; "  page {}, goes on {goes_on}", task.page().0)?;
    shown::outputs(rt, alloc, &outs)
}
