//! Windows that are made of records.
ghost use Rattle.std.specs.Prelude.{◌≡◌, ◌≤◌, IfOk, map};
ghost use Rattle.ff_machine.specs.Alone.{AreWindows};
ghost use Rattle.ff_records.specs.Records.{windows_recs};
ghost use Rattle.ff_records.specs.Restored.{Restores};
ghost use Rattle.ff_windows.specs.Recorded.{page_of, window_of};

use crate::checking::are_fit;
use crate::page::PageCell;
use crate::pages::Pages;
use crate::window::WinCell;
use crate::windows::Windows;
use ff_acts::Acts;
use ff_contract::Steps;
use ff_cow::CowVec;
use ff_name::NoMemory;
use ff_records::{ActRecs, PageRec, PageRecs, WinIds, WinRec, WinRecs};
use std::alloc::{AllocError, Global};
use std::sync::ledger::Ledger;

impl Windows {
    /// The windows, pages and activations that have these records, whose names, addresses, scripts
    /// and values they share, with these windows open. `None` exactly where no valid ones have
    /// them.
    pub fn restore<C: Ledger>(
        alloc: Global,
        acts: &ActRecs,
        pages: &PageRecs,
        wins: &WinRecs,
        opened: &WinIds,
        copies: &mut Steps<C>,
    ) -> Result<Option<Windows>, NoMemory>
        ensures value { IfOk result (Restores AreWindows windows_recs
            (record { acts = acts.now; pages = pages.now; wins = wins.now; opened = opened.now })) }
        ensures later { copies.old ≤ copies.new }
    {
        let Some(acts) = Acts::restore(alloc, acts, copies)? else {
            return Ok(None);
        };
        let pages = pages.as_slice();
        let wins = wins.as_slice();
        let opened = opened.as_slice();
        let fit = are_fit(alloc, acts.len(), pages, wins, opened)?;
        if !fit {
            return Ok(None);
        }
        let pages = page_cells(alloc, pages, copies)?;
        let windows = win_cells(alloc, wins, copies)?;
        let opened = Vec::from_slice(alloc, opened)?;
        Ok(Some(Windows::of(alloc, windows, opened, pages, acts)))
    }
}

/// The cells of pages.
fn page_cells<C: Ledger>(
    alloc: Global,
    pages: &[PageRec],
    copies: &mut Steps<C>,
) -> Result<Pages, NoMemory>
    ensures value { IfOk result (λ cells. cells ≡ map page_of pages.now) }
    ensures later { copies.old ≤ copies.new }
{
    let mut cells = Pages::new(alloc);
    for page in pages {
        let cell = PageCell::restored(alloc, page, copies)?;
        cells.push(cell, copies)?;
    }
    Ok(cells)
}

/// The cells of windows.
fn win_cells<C: Ledger>(
    alloc: Global,
    wins: &[WinRec],
    copies: &mut Steps<C>,
) -> Result<CowVec<WinCell>, NoMemory>
    ensures value { IfOk result (λ cells. cells ≡ map window_of wins.now) }
    ensures later { copies.old ≤ copies.new }
{
    let mut cells = CowVec::new(alloc);
    for win in wins {
        let cell = WinCell::of(win.name.as_ref(), win.opener, win.page)?;
        let Ok(()) = cells.push(cell, copies) else {
            return Err(AllocError);
        };
    }
    Ok(cells)
}
