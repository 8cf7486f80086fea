//! The operators that read windows. A window that was closed is dead.
ghost use Rattle.std.specs.Prelude.{◌≡◌, ◌<◌, List, length, All};
ghost use Rattle.ff_tree.specs.declared.op.Op.TheVariants as op;
ghost use Rattle.ff_value.specs.declared.output.Out.{Out};
ghost use Rattle.ff_machine.specs.Answers.{Does, Reads};
ghost use Rattle.ff_machine.specs.Operators as operators;
ghost use Rattle.ff_machine.specs.References.{made};
ghost use Rattle.ff_machine.specs.Valid.{IsVal};

use crate::operands::{no_operands, one_win};
use crate::pure::make_text;
use crate::readers::{is_open, shown_address, shown_page};
use ff_operators::Fail;
use ff_operators::operands::one_str;
use ff_stores::Stores;
use ff_value::{Fault, PageId, Val, WinId};
use std::alloc::Global;

/// `self`: the window of the task's page.
pub(crate) fn self_window(stores: &Stores, page: PageId, args: &[Val]) -> Result<Val, Fail>
    requires { page.0 < length stores.now.windows.pages }
    ensures { Reads (operators.operate stores.now page op.SelfWindow args.now) result }
{
    match no_operands(args) {
        Some(()) => Ok(Val::Win(stores.windows().win_of(page))),
        None => Err(Fail::Fault(Fault::Kind)),
    }
}

/// `opener`: the window whose script opened an open window, or `null`.
pub(crate) fn opener(stores: &Stores, page: PageId, args: &[Val]) -> Result<Val, Fail>
    requires { All (IsVal (made stores.now)) args.now }
    ensures { Reads (operators.operate stores.now page op.Opener args.now) result }
{
    match one_win(args) {
        Some(window) => opener_of(stores, window),
        None => Err(Fail::Fault(Fault::Kind)),
    }
}

fn opener_of(stores: &Stores, opened: WinId) -> Result<Val, Fail>
    requires { opened.0 < length stores.now.windows.windows }
    ensures { Reads (operators.opener stores.now opened) result }
{
    if !is_open(stores, opened) {
        return Err(Fail::Fault(Fault::Dead));
    }
    Ok(stores.windows().opener(opened).map_or(Val::Null, Val::Win))
}

/// `live`: whether a window is open.
pub(crate) fn live(stores: &Stores, page: PageId, args: &[Val]) -> Result<Val, Fail>
    ensures { Reads (operators.operate stores.now page op.Live args.now) result }
{
    match one_win(args) {
        Some(window) => Ok(Val::Bool(is_open(stores, window))),
        None => Err(Fail::Fault(Fault::Kind)),
    }
}

/// `url`: the address of an open window's page, as a text that is made.
pub(crate) fn url(
    alloc: Global,
    stores: &mut Stores,
    page: PageId,
    args: &[Val],
) -> Result<Val, Fail>
    requires { All (IsVal (made stores.old)) args.now }
    ensures { (puts : List Out) → Does (operators.operate stores.old page op.Url args.now) result
        stores.old stores.new puts puts }
{
    match one_win(args) {
        Some(window) => url_of(alloc, stores, window),
        None => Err(Fail::Fault(Fault::Kind)),
    }
}

fn url_of(alloc: Global, stores: &mut Stores, window: WinId) -> Result<Val, Fail>
    requires { window.0 < length stores.old.windows.windows }
    ensures { (puts : List Out) → Does (operators.page_url stores.old window) result stores.old
        stores.new puts puts }
{
    if !is_open(stores, window) {
        return Err(Fail::Fault(Fault::Dead));
    }
    let address = shown_address(alloc, stores, window)?;
    make_text(alloc, stores, &address)
}

/// `page`: the root of an open window's page.
pub(crate) fn page(stores: &Stores, page: PageId, args: &[Val]) -> Result<Val, Fail>
    requires { All (IsVal (made stores.now)) args.now }
    ensures { Reads (operators.operate stores.now page op.Page args.now) result }
{
    match one_win(args) {
        Some(window) => root_of(stores, window),
        None => Err(Fail::Fault(Fault::Kind)),
    }
}

fn root_of(stores: &Stores, window: WinId) -> Result<Val, Fail>
    requires { window.0 < length stores.now.windows.windows }
    ensures { Reads (operators.page_root stores.now window) result }
{
    if !is_open(stores, window) {
        return Err(Fail::Fault(Fault::Dead));
    }
    let shown = shown_page(stores, window);
    Ok(Val::Node(stores.windows().root_of(shown)))
}

/// `window`: the first open window of a name, or `null`.
pub(crate) fn window(stores: &Stores, page: PageId, args: &[Val]) -> Result<Val, Fail>
    ensures { Reads (operators.operate stores.now page op.Window args.now) result }
{
    match one_str(args) {
        Some(name) => Ok(stores.windows().named(name).map_or(Val::Null, Val::Win)),
        None => Err(Fail::Fault(Fault::Kind)),
    }
}
