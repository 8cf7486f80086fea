//! Windows and their pages.
ghost use Rattle.std.specs.Prelude.{◌≡◌, OnOk};
ghost use Rattle.ff_name.specs.Address.{IsWellSpelled};
ghost use Rattle.ff_windows.specs.Queues.{count_entries};

use crate::reading::{address, number, parted, text, window};
use crate::shown;
use crate::words::{refused, yes_or_no};
use anyhow::Result;
use ff_contract::Steps;
use ff_operators::Fail;
use ff_value::{Fault, NodeId, PageId, Text, Url, WinId};
use ff_windows::Windows;
use std::alloc::Global;
use std::sync::ledger::Ledger;

/// What a line gives.
pub fn take<C: Ledger>(
    alloc: Global,
    windows: &mut Windows,
    line: &str,
    copies: &mut Steps<C>,
) -> Result<String> {
    let (word, rest) = parted(line);
    match word {
        "open" => open_line(alloc, windows, rest, copies),
        "load" => load_line(alloc, windows, rest, copies),
        "close" => close(alloc, windows, rest, copies),
        _ => shown::ask(alloc, windows, word, rest),
    }
}

fn open_line<C: Ledger>(
    alloc: Global,
    windows: &mut Windows,
    rest: &str,
    copies: &mut Steps<C>,
) -> Result<String> {
    let (name, rest) = parted(rest);
    let (opener, url) = parted(rest);
    let opener = opener_of(windows, opener)?;
    let name = text(alloc, name)?;
    let url = address(alloc, url)?;
    match open(windows, &name, opener, &url, copies) {
        Ok(n) => Ok(format!(in alloc; "window {}", n.0)?),
        Err(fail) => Ok(refused(alloc, fail)?),
    }
}

/// The opener that a word names; `-` is none.
fn opener_of(windows: &Windows, word: &str) -> Result<Option<WinId>> {
    match word {
        "-" => Ok(None),
        _ => Ok(Some(window(windows, word)?)),
    }
}

/// Makes a page of a window that there is or of the next one. Its root has its own number and 7.
#[tactic(auto, using(crate::proofs::Counted::page_counted))]
fn add<C: Ledger>(
    windows: &mut Windows,
    url: &Url,
    win: WinId,
    copies: &mut Steps<C>,
) -> Result<PageId, Fail>
    requires { IsWellSpelled url.now }
    ensures { OnOk result (count_entries windows.new ≡ count_entries windows.old) }
{
    if win.0 > windows.next_win().0 {
        return Err(Fail::Fault(Fault::Dead));
    }
    let root = NodeId(windows.next_page().0.saturating_add(7));
    windows.add_page(url, win, root, copies)
}

/// Opens a window by an opener or none, with a page of its own at an address.
pub fn open<C: Ledger>(
    windows: &mut Windows,
    name: &Text,
    opener: Option<WinId>,
    url: &Url,
    copies: &mut Steps<C>,
) -> Result<WinId, Fail>
    requires { IsWellSpelled url.now }
    ensures { OnOk result (count_entries windows.new ≡ count_entries windows.old) }
{
    let win = windows.next_win();
    let page = add(windows, url, win, copies)?;
    show(windows, name, opener, page, copies)
}

/// Opens a window with the page that was made for it.
fn show<C: Ledger>(
    windows: &mut Windows,
    name: &Text,
    opener: Option<WinId>,
    page: PageId,
    copies: &mut Steps<C>,
) -> Result<WinId, Fail>
    ensures { OnOk result (count_entries windows.new ≡ count_entries windows.old) }
{
    if page.0 >= windows.next_page().0 || windows.win_of(page) != windows.next_win() {
        return Err(Fail::Fault(Fault::Dead));
    }
    match opener {
        Some(o) if o.0 >= windows.next_win().0 => Err(Fail::Fault(Fault::Dead)),
        Some(o) => windows.add_window(Some(name), Some(o), page, copies),
        None => windows.add_window(Some(name), None, page, copies),
    }
}

fn load_line<C: Ledger>(
    alloc: Global,
    windows: &mut Windows,
    rest: &str,
    copies: &mut Steps<C>,
) -> Result<String> {
    let (n, url) = parted(rest);
    let n = window(windows, n)?;
    let url = address(alloc, url)?;
    match load(windows, &url, n, copies) {
        Ok(page) => Ok(format!(in alloc; "page {}", page.0)?),
        Err(fail) => Ok(refused(alloc, fail)?),
    }
}

/// Shows another page of an open window.
fn load<C: Ledger>(
    windows: &mut Windows,
    url: &Url,
    n: WinId,
    copies: &mut Steps<C>,
) -> Result<PageId, Fail>
    requires { IsWellSpelled url.now }
{
    let page = add(windows, url, n, copies)?;
    if page.0 >= windows.next_page().0 || windows.win_of(page) != n || !windows.is_open(n) {
        return Err(Fail::Fault(Fault::Dead));
    }
    windows.show_page(n, page, copies)?;
    Ok(page)
}

fn close<C: Ledger>(
    alloc: Global,
    windows: &mut Windows,
    rest: &str,
    copies: &mut Steps<C>,
) -> Result<String> {
    let was = windows.close(WinId(number(rest)?), copies)?;
    Ok(format!(in alloc; "{}", yes_or_no(was))?)
}
