//! A script that runs until it has a value, fails or may not go on.
ghost use Rattle.std.specs.Prelude.{◌≡◌, IfOk, OnOk, IsTrue};
ghost use Rattle.ff_tree.specs.Spelled.{IsWellSpelledExpr};
ghost use Rattle.ff_machine.specs.Valid.{IsStores};
ghost use Rattle.ff_machine.specs.Windows.{is_live};
ghost use Rattle.ff_browser_table.specs.Ready.{IsReady};

use anyhow::{Result, bail};
use ff_contract::Steps;
use ff_frames::Control;
use ff_machine::Reduced;
use ff_step::reduce;
use ff_stores::Stores;
use ff_value::{ActId, Body, Fault, NoMemory, Out, PageId, Val};
use std::alloc::Global;
use std::sync::ledger::Ledger;

/// The most reductions of one script.
const MOST_REDUCTIONS: u32 = 20_000_000;

/// How a script ended.
#[derive(Drop)]
pub enum End {
    Value(Val),
    Fault(Fault),
    /// The page of the script isn't live.
    Gone,
    /// It may go on.
    GoesOn,
}

/// Runs a script of a page; gives how it ended, and the number of reductions.
pub fn run<C: Ledger>(
    alloc: Global,
    stores: &mut Stores,
    page: PageId,
    body: &Body,
    outs: &mut Vec<Out>,
    copies: &mut Steps<C>,
) -> Result<(End, u32)>
    requires { IsWellSpelledExpr body.now }
{
    let act = activation(stores, page)?;
    let mut control = started(alloc, stores, act, body)?;
    Ok(follow(alloc, &mut control, stores, page, outs, copies)?)
}

/// The activation of a page.
fn activation(stores: &Stores, page: PageId) -> Result<ActId> {
    let windows = stores.windows();
    if page.0 >= windows.next_page().0 {
        bail!("no page");
    }
    Ok(windows.act_of(page))
}

/// Begins to run a script in an activation.
fn started(alloc: Global, stores: &Stores, act: ActId, body: &Body) -> Result<Control>
    requires { IsWellSpelledExpr body.now }
    ensures { IfOk result (IsReady stores.now) }
{
    if act.0 >= stores.windows().next_act().0 {
        bail!("no activation");
    }
    let mut control = Control::new(alloc);
    control.start(alloc, body, act)?;
    Ok(control)
}

/// Makes reductions until there is none to make.
fn follow<C: Ledger>(
    alloc: Global,
    control: &mut Control,
    stores: &mut Stores,
    page: PageId,
    outs: &mut Vec<Out>,
    copies: &mut Steps<C>,
) -> Result<(End, u32), NoMemory>
    requires { IsReady stores.old control.old }
{
    for made in 0..MOST_REDUCTIONS {
        if !lives(stores, page) {
            return Ok((End::Gone, made));
        }
        match step(alloc, control, stores, page, outs, copies)? {
            Reduced::Moved => {}
            Reduced::Done(v) => return Ok((End::Value(v), made)),
            Reduced::Failed(fault) => return Ok((End::Fault(fault), made)),
        }
    }
    Ok((End::GoesOn, MOST_REDUCTIONS))
}

fn lives(stores: &Stores, page: PageId) -> bool
    ensures value { result ≡ is_live stores.now.windows page }
    ensures valid { IsStores stores.now }
{
    stores.windows().live(page)
}

/// Makes one reduction.
fn step<C: Ledger>(
    alloc: Global,
    control: &mut Control,
    stores: &mut Stores,
    page: PageId,
    outs: &mut Vec<Out>,
    copies: &mut Steps<C>,
) -> Result<Reduced, NoMemory>
    requires valid { IsStores stores.old }
    requires ready { IsReady stores.old control.old }
    requires live { IsTrue (is_live stores.old.windows page) }
    ensures { OnOk result (IsReady stores.new control.new) }
{
    let answer = reduce(alloc, control, stores, page, outs, copies)?;
    Ok(answer)
}
