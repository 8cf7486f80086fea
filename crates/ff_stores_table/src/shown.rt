//! What can be read off the windows and pages.

use crate::reading::{number, page, text, window};
use crate::words::{address, or_else, yes_or_no};
use anyhow::{Result, bail};
use ff_value::WinId;
use ff_windows::Windows;
use std::alloc::Global;

/// What a line gives that asks.
pub fn ask(alloc: Global, windows: &Windows, word: &str, rest: &str) -> Result<String> {
    match word {
        "next" => next(alloc, windows),
        "room" => Ok(format!(in alloc; "{}", yes_or_no(windows.can_add()))?),
        "at" => found(alloc, windows.at(number(rest)?)),
        "named" => found(alloc, windows.named(&text(alloc, rest)?)),
        "is" => window_words(alloc, windows, rest),
        "page" => page_words(alloc, windows, rest),
        _ => bail!("no line of windows: {word}"),
    }
}

/// The numbers that come next, and whether there is room for a page and for a window.
fn next(alloc: Global, windows: &Windows) -> Result<String> {
    let (page, win, act) = (
        windows.next_page().0,
        windows.next_win().0,
        windows.next_act().0,
    );
    let numbers = format!(in alloc; "page {page}, window {win}, activation {act}")?;
    let room = yes_or_no(windows.room());
    let can_add = yes_or_no(windows.can_add());
    Ok(format!(in alloc; "{numbers}; room {room}, can add {can_add}")?)
}

/// A window, where there is one.
fn found(alloc: Global, n: Option<WinId>) -> Result<String> {
    match n {
        Some(n) => Ok(format!(in alloc; "window {}", n.0)?),
        None => Ok(format!(in alloc; "none")?),
    }
}

fn window_words(alloc: Global, windows: &Windows, rest: &str) -> Result<String> {
    let n = window(windows, rest)?;
    let page = windows.page(n).0;
    let place = or_else(alloc, "at", windows.position(n), "closed")?;
    let opener = found(alloc, windows.opener(n))?;
    Ok(format!(in alloc; "{place}, page {page}, opener {opener}")?)
}

fn page_words(alloc: Global, windows: &Windows, rest: &str) -> Result<String> {
    let page = page(windows, rest)?;
    let (win, root, act) = (
        windows.win_of(page).0,
        windows.root_of(page).0,
        windows.act_of(page).0,
    );
    let slot = windows.next_slot(page);
    let numbers = format!(in alloc; "root {root}, activation {act}, next slot {slot}")?;
    let url = address(alloc, windows.url_of(page))?;
    let live = yes_or_no(windows.live(page));
    Ok(format!(in alloc; "of window {win} at {url}, live {live}; {numbers}")?)
}
