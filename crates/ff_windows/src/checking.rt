//! Which records of pages and windows are those of valid ones.
ghost use Rattle.std.specs.Prelude.{◌≡◌, ◌<◌, ◌≤◌, ◌↔◌, IsTrue, IfOk, All, length, map, nat_eq, sum_by};
ghost use Rattle.std.specs.List.{list_any};
ghost use Rattle.std.specs.Option.{ForSome};
ghost use Rattle.ff_machine.specs.Alone.{AreOpen, AreOwn, ArePages, IsEntry, IsPage, IsQueue, IsWindow};
ghost use Rattle.ff_windows.specs.Recorded.{page_of, window_of, AreFit};

use ff_machine::{Entry, MOST_ENTRIES, MOST_PAGES, MOST_SLOTS, MOST_WINDOWS};
use ff_name::NoMemory;
use ff_records::{PageRec, WinRec};
use ff_spelling::{is_expr, is_url};
use ff_value::WinId;
use std::alloc::{AllocError, Global};
use std::collections::BTreeSet;

/// Whether pages, windows and open windows are valid together, beside so many activations.
pub(crate) fn are_fit(
    alloc: Global,
    acts: u32,
    pages: &[PageRec],
    wins: &[WinRec],
    opened: &[WinId],
) -> Result<bool, NoMemory>
    ensures { IfOk result (λ are. IsTrue are ↔ AreFit acts pages.now wins.now opened.now) }
{
    let valid = are_pages(alloc, acts, pages)?;
    if !valid {
        return Ok(false);
    }
    if !are_windows(wins, pages.len()) {
        return Ok(false);
    }
    if !are_open(opened, wins.len()) {
        return Ok(false);
    }
    Ok(are_own(wins, pages))
}

/// Whether pages are valid in a store of so many activations.
fn are_pages(alloc: Global, acts: u32, pages: &[PageRec]) -> Result<bool, NoMemory>
    ensures { IfOk result (λ are. IsTrue are ↔ ArePages acts (map page_of pages.now)) }
{
    for page in pages {
        let valid = is_page(alloc, acts, page)?;
        if !valid {
            return Ok(false);
        }
    }
    Ok(pages.len() <= MOST_PAGES as usize && have_few_entries(pages))
}

/// Whether the queues are not too long together.
fn have_few_entries(pages: &[PageRec]) -> bool
    ensures { IsTrue result ↔ (sum_by (λ page. length page.queue) pages.now ≤ MOST_ENTRIES) }
{
    let mut room = MOST_ENTRIES as usize;
    for page in pages {
        let count = page.queue.len();
        if count > room {
            return false;
        }
        room -= count;
    }
    true
}

/// Whether a page is valid in a store of so many activations.
fn is_page(alloc: Global, acts: u32, page: &PageRec) -> Result<bool, NoMemory>
    ensures { IfOk result (λ is. IsTrue is ↔ IsPage acts (page_of page.now)) }
{
    let has_queue = is_queue(alloc, page.next, page.queue.as_slice())?;
    Ok(is_url(&page.url) && page.act.0 < acts && page.next <= MOST_SLOTS && has_queue)
}

/// Whether the scripts of a queue are well spelled, and its waiting slots differ and are below the
/// next one.
fn is_queue(alloc: Global, next: u32, queue: &[Entry]) -> Result<bool, NoMemory>
    ensures { IfOk result (λ is. IsTrue is ↔ IsQueue next queue.now) }
{
    let mut slots = BTreeSet::new(alloc);
    for entry in queue {
        match entry {
            Entry::Ready(body) => {
                let spelled = is_expr(alloc, body.get())?;
                if !spelled {
                    return Ok(false);
                }
            }
            Entry::Wait(slot) => {
                if *slot >= next {
                    return Ok(false);
                }
                match slots.insert(*slot) {
                    Ok(true) => {}
                    Ok(false) => return Ok(false),
                    Err(_refused) => return Err(AllocError),
                }
            }
        }
    }
    Ok(true)
}

/// Whether windows have pages and openers that there are.
fn are_windows(wins: &[WinRec], pages: usize) -> bool
    ensures { IsTrue result ↔ All (IsWindow (length wins.now) pages) (map window_of wins.now) }
{
    for win in wins {
        if !is_window(win, wins.len(), pages) {
            return false;
        }
    }
    true
}

fn is_window(win: &WinRec, wins: usize, pages: usize) -> bool
    ensures { IsTrue result ↔ IsWindow wins pages (window_of win.now) }
{
    if let Some(name) = &win.name {
        let _known = name.as_bytes();
    }
    has_opener(win.opener, wins) && (win.page.0 as usize) < pages
}

/// Whether an opener, where there is one, is one of so many windows.
fn has_opener(opener: Option<WinId>, wins: usize) -> bool
    ensures { IsTrue result ↔ ForSome opener (λ w. w.0 < wins) }
{
    match opener {
        Some(w) => (w.0 as usize) < wins,
        None => true,
    }
}

/// Whether the open windows are among so many, differ, and are not too many.
fn are_open(opened: &[WinId], wins: usize) -> bool
    ensures { IsTrue result ↔ AreOpen wins opened.now }
{
    if opened.len() > MOST_WINDOWS {
        return false;
    }
    for i in 0..opened.len() {
        if opened[i].0 as usize >= wins {
            return false;
        }
        if is_among(opened[i], &opened[..i]) {
            return false;
        }
    }
    true
}

/// Whether a window is one of these.
fn is_among(win: WinId, others: &[WinId]) -> bool
    ensures { result ≡ list_any (nat_eq win.0) (map (λ w. w.0) others.now) }
{
    for other in others {
        if win.0 == other.0 {
            return true;
        }
    }
    false
}

/// Whether the page of each window names that window.
fn are_own(wins: &[WinRec], pages: &[PageRec]) -> bool
    requires { All (λ win. win.page.0 < length pages.now) wins.now }
    ensures { IsTrue result ↔ AreOwn (map window_of wins.now) (map page_of pages.now) }
{
    for i in 0..wins.len() {
        if pages[wins[i].page.0 as usize].win.0 as usize != i {
            return false;
        }
    }
    wins.len() <= pages.len()
}
