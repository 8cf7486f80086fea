//! The operators that open, move and close windows. Where there is no room for the window or its
//! request nothing is left of either: both rooms are tested before the first change.
ghost use Rattle.std.specs.Prelude.{◌≡◌, ◌<◌, List, length, All, IsTrue, None, Some};
ghost use Rattle.std.specs.Option.{option_copied};
ghost use Rattle.ff_contract.specs.Rises.{RisesBy};
ghost use Rattle.ff_name.specs.Address.{IsWellSpelled};
ghost use Rattle.ff_name.specs.Reading.{read_url};
ghost use Rattle.ff_name.specs.declared.urls.Url.TheVariants as url;
ghost use Rattle.ff_tree.specs.declared.op.Op.TheVariants as op;
ghost use Rattle.ff_machine.specs.Answers.{Does};
ghost use Rattle.ff_machine.specs.Operators as operators;
ghost use Rattle.ff_machine.specs.Stores as s;
ghost use Rattle.ff_machine.specs.Windows as windows;
ghost use Rattle.ff_machine.specs.References.{made};
ghost use Rattle.ff_machine.specs.Valid.{IsVal};

use crate::operands::{one_win, win_str};
use crate::readers::{is_open, own_window};
use crate::words::read_address;
use ff_contract::Steps;
use ff_machine::Dst;
use ff_name::{Domain, NoMemory, Text, Url};
use ff_operators::Fail;
use ff_operators::operands::{one_str, two_strs};
use ff_stores::Stores;
use ff_value::{Fault, Out, PageId, Val, WinId};
use std::alloc::Global;
use std::sync::ledger::Ledger;

/// `open`: a window opens at an address, with the task's window for its opener.
pub(crate) fn open<C: Ledger>(
    alloc: Global,
    stores: &mut Stores,
    page: PageId,
    args: &[Val],
    outs: &mut Vec<Out>,
    copies: &mut Steps<C>,
) -> Result<Val, Fail>
    requires { page.0 < length stores.old.windows.pages }
    ensures does { Does (operators.operate stores.old page op.Open args.now) result stores.old
        stores.new outs.old.items outs.new.items }
    ensures copies { RisesBy 125 copies.old copies.new }
{
    let Some(address) = one_str(args) else {
        return Err(Fail::Fault(Fault::Kind));
    };
    match read_address(alloc, address)? {
        Some(url) => open_at(alloc, stores, page, None, &url, outs, copies),
        None => Err(Fail::Fault(Fault::Range)),
    }
}

/// `open-named`: the first open window of a name goes to an address; else one opens there.
pub(crate) fn open_named<C: Ledger>(
    alloc: Global,
    stores: &mut Stores,
    page: PageId,
    args: &[Val],
    outs: &mut Vec<Out>,
    copies: &mut Steps<C>,
) -> Result<Val, Fail>
    requires { page.0 < length stores.old.windows.pages }
    ensures does { Does (operators.operate stores.old page op.OpenNamed args.now) result stores.old
        stores.new outs.old.items outs.new.items }
    ensures copies { RisesBy 125 copies.old copies.new }
{
    let Some((name, address)) = two_strs(args) else {
        return Err(Fail::Fault(Fault::Kind));
    };
    match read_address(alloc, address)? {
        Some(url) => open_named_at(alloc, stores, page, name, &url, outs, copies),
        None => Err(Fail::Fault(Fault::Range)),
    }
}

fn open_named_at<C: Ledger>(
    alloc: Global,
    stores: &mut Stores,
    page: PageId,
    name: &Text,
    url: &Url,
    outs: &mut Vec<Out>,
    copies: &mut Steps<C>,
) -> Result<Val, Fail>
    requires page { page.0 < length stores.old.windows.pages }
    requires url { IsWellSpelled url.now }
    ensures does { Does (operators.open_named stores.old page name.now url.now
        (windows.named stores.old.windows name.now)) result stores.old stores.new outs.old.items
        outs.new.items }
    ensures copies { RisesBy 125 copies.old copies.new }
{
    match stores.windows().named(name) {
        Some(window) => go_at(stores, window, url, Val::Win(window), outs, copies),
        None => open_at(alloc, stores, page, Some(name), url, outs, copies),
    }
}

fn open_at<C: Ledger>(
    alloc: Global,
    stores: &mut Stores,
    page: PageId,
    name: Option<&Text>,
    url: &Url,
    outs: &mut Vec<Out>,
    copies: &mut Steps<C>,
) -> Result<Val, Fail>
    requires page { page.0 < length stores.old.windows.pages }
    requires url { IsWellSpelled url.now }
    ensures does { Does (operators.open_at stores.old page (option_copied name.entry) url.now)
        result stores.old stores.new outs.old.items outs.new.items }
    ensures copies { RisesBy 125 copies.old copies.new }
{
    match url {
        Url::Blank => open_blank(stores, page, name, outs, copies),
        Url::At(domain, uri) => open_asking(alloc, stores, page, name, domain, uri, outs, copies),
    }
}

fn open_blank<C: Ledger>(
    stores: &mut Stores,
    page: PageId,
    name: Option<&Text>,
    outs: &mut Vec<Out>,
    copies: &mut Steps<C>,
) -> Result<Val, Fail>
    requires { page.0 < length stores.old.windows.pages }
    ensures does { Does (operators.open_at stores.old page (option_copied name.entry) url.Blank)
        result stores.old stores.new outs.old.items outs.new.items }
    ensures copies { RisesBy 92 copies.old copies.new }
{
    let opener = own_window(stores, page);
    match stores.open_window(name, Some(opener), outs, copies)? {
        Some(window) => Ok(Val::Win(window)),
        None => Err(Fail::Fault(Fault::Limit)),
    }
}

/// The room for the request is tested first: `open_window` tests that for the window, and changes
/// nothing without it.
fn open_asking<C: Ledger>(
    alloc: Global,
    stores: &mut Stores,
    page: PageId,
    name: Option<&Text>,
    domain: &Domain,
    uri: &Text,
    outs: &mut Vec<Out>,
    copies: &mut Steps<C>,
) -> Result<Val, Fail>
    requires page { page.0 < length stores.old.windows.pages }
    requires url { IsWellSpelled (url.At domain.now uri.now) }
    ensures does { Does (operators.open_at stores.old page (option_copied name.entry)
        (url.At domain.now uri.now)) result stores.old stores.new outs.old.items outs.new.items }
    ensures copies { RisesBy 125 copies.old copies.new }
{
    let has_room = stores.requests().room(domain);
    if !has_room {
        return Err(Fail::Fault(Fault::Limit));
    }
    let opener = own_window(stores, page);
    let nothing = Text::of_utf8(alloc, b"")?;
    match stores.open_window(name, Some(opener), outs, copies)? {
        Some(window) => {
            stores.send(domain, uri, &nothing, Dst::Window(window), outs, copies)?;
            Ok(Val::Win(window))
        }
        None => Err(Fail::Fault(Fault::Limit)),
    }
}

/// `go`: an open window goes to an address.
pub(crate) fn go<C: Ledger>(
    alloc: Global,
    stores: &mut Stores,
    page: PageId,
    args: &[Val],
    outs: &mut Vec<Out>,
    copies: &mut Steps<C>,
) -> Result<Val, Fail>
    ensures does { Does (operators.operate stores.old page op.Go args.now) result stores.old
        stores.new outs.old.items outs.new.items }
    ensures copies { RisesBy 94 copies.old copies.new }
{
    let Some((window, address)) = win_str(args) else {
        return Err(Fail::Fault(Fault::Kind));
    };
    if !is_open(stores, window) {
        return Err(Fail::Fault(Fault::Dead));
    }
    match read_address(alloc, address)? {
        Some(url) => go_at(stores, window, &url, Val::Null, outs, copies),
        None => Err(Fail::Fault(Fault::Range)),
    }
}

/// An open window goes to an address, and then the value is given.
fn go_at<C: Ledger>(
    stores: &mut Stores,
    window: WinId,
    url: &Url,
    value: Val,
    outs: &mut Vec<Out>,
    copies: &mut Steps<C>,
) -> Result<Val, Fail>
    requires is_open { IsTrue (windows.is_open stores.old.windows window) }
    requires url { IsWellSpelled url.now }
    ensures does { Does (operators.does_or_limit value (s.go stores.old window url.now)) result
        stores.old stores.new outs.old.items outs.new.items }
    ensures copies { RisesBy 94 copies.old copies.new }
{
    if stores.go(window, url, outs, copies)? {
        Ok(value)
    } else {
        Err(Fail::Fault(Fault::Limit))
    }
}

/// `close`: an open window closes.
pub(crate) fn close<C: Ledger>(
    stores: &mut Stores,
    page: PageId,
    args: &[Val],
    outs: &mut Vec<Out>,
    copies: &mut Steps<C>,
) -> Result<Val, Fail>
    ensures does { Does (operators.operate stores.old page op.Close args.now) result stores.old
        stores.new outs.old.items outs.new.items }
    ensures copies { copies.new ≡ copies.old }
{
    let Some(closing) = one_win(args) else {
        return Err(Fail::Fault(Fault::Kind));
    };
    if !is_open(stores, closing) {
        return Err(Fail::Fault(Fault::Dead));
    }
    stores.close_window(closing, outs, copies)?;
    Ok(Val::Null)
}
