//! What is asked of windows and pages. No call takes memory.
ghost use Rattle.std.specs.Prelude.{◌≡◌, ◌<◌, length, slice_get};
ghost use Rattle.ff_machine.specs.Windows as w;

use crate::windows::Windows;
use ff_machine::{MOST_ACTS, MOST_PAGES, MOST_WINDOWS};
use ff_name::{Text, Url};
use ff_value::{ActId, NodeId, PageId, WinId};

impl Windows {
    /// Whether one page and one activation more are within their limits.
    pub fn room(&self) -> bool
        ensures { result ≡ w.has_page_room self.now }
    {
        self.count_pages() < MOST_PAGES && self.acts().len() < MOST_ACTS
    }

    /// Whether one page, one activation and one open window more are within their limits.
    pub fn can_add(&self) -> bool
        ensures { result ≡ w.has_window_room self.now }
    {
        self.room() && self.opened().len() < MOST_WINDOWS
    }

    /// The number that the next page gets.
    pub fn next_page(&self) -> PageId
        ensures { result ≡ w.next_page self.now }
    {
        PageId(self.count_pages())
    }

    /// The number that the next window gets.
    pub fn next_win(&self) -> WinId
        ensures { result ≡ w.next_win self.now }
    {
        WinId(self.count_windows())
    }

    /// The number that the next activation gets.
    pub fn next_act(&self) -> ActId
        ensures { result ≡ w.next_act self.now }
    {
        ActId(self.acts().len())
    }

    /// The open window at a place, counted from 0 in order of opening, where there is one.
    pub fn at(&self, place: u32) -> Option<WinId>
        ensures { result ≡ slice_get self.now.opened place }
    {
        self.opened().get(place as usize).copied()
    }

    /// The place of a window among the open ones, where it is open.
    pub fn position(&self, n: WinId) -> Option<u32>
        ensures { result ≡ w.place self.now n }
    {
        let opened = self.opened();
        for (i, m) in opened.iter().enumerate() {
            if n.0 == m.0 {
                return Some(i as u32);
            }
        }
        None
    }

    /// Whether a window is open.
    pub fn is_open(&self, n: WinId) -> bool
        ensures { result ≡ w.is_open self.now n }
    {
        let opened = self.opened();
        for m in opened {
            if n.0 == m.0 {
                return true;
            }
        }
        false
    }

    /// The first open window of a name.
    pub fn named(&self, name: &Text) -> Option<WinId>
        ensures { result ≡ w.named self.now name.now }
    {
        let opened = self.opened();
        for n in opened {
            if self.window(*n).is_named(name) {
                return Some(*n);
            }
        }
        None
    }

    /// The window that opened a window that there is, where a script did.
    pub fn opener(&self, n: WinId) -> Option<WinId>
        requires { n.0 < length self.now.windows }
        ensures { result ≡ (w.window_at self.now n).opener }
    {
        self.window(n).opener()
    }

    /// The page of a window that there is, open or closed.
    pub fn page(&self, n: WinId) -> PageId
        requires { n.0 < length self.now.windows }
        ensures { result ≡ (w.window_at self.now n).page }
    {
        self.window(n).page()
    }

    /// Whether a page is that of an open window.
    pub fn live(&self, page: PageId) -> bool
        ensures { result ≡ w.is_live self.now page }
    {
        let opened = self.opened();
        for n in opened {
            if self.window(*n).page().0 == page.0 {
                return true;
            }
        }
        false
    }

    /// The page of the first open window whose queue begins with a script that may run: a waiting
    /// slot holds back what stands behind it.
    pub fn ready(&self) -> Option<PageId>
        ensures { result ≡ w.ready self.now }
    {
        if !self.any_ready() {
            return None;
        }
        let opened = self.opened();
        for n in opened {
            let page = self.window(*n).page();
            if self.page_of(page).is_ready() {
                return Some(page);
            }
        }
        None
    }

    /// The address of a page that there is.
    pub fn url_of(&self, page: PageId) -> &Url
        requires { page.0 < length self.now.pages }
        ensures { result.now ≡ (w.page_at self.now page).url }
    {
        self.page_of(page).url()
    }

    /// The window of a page that there is.
    pub fn win_of(&self, page: PageId) -> WinId
        requires { page.0 < length self.now.pages }
        ensures { result ≡ (w.page_at self.now page).win }
    {
        self.page_of(page).win()
    }

    /// The root of a page that there is.
    pub fn root_of(&self, page: PageId) -> NodeId
        requires { page.0 < length self.now.pages }
        ensures { result ≡ (w.page_at self.now page).root }
    {
        self.page_of(page).root()
    }

    /// The activation of a page that there is.
    pub fn act_of(&self, page: PageId) -> ActId
        requires { page.0 < length self.now.pages }
        ensures { result ≡ (w.page_at self.now page).act }
    {
        self.page_of(page).act()
    }

    /// The number that the next slot of a page gets.
    pub fn next_slot(&self, page: PageId) -> u32
        requires { page.0 < length self.now.pages }
        ensures { result ≡ (w.page_at self.now page).next }
    {
        self.page_of(page).next()
    }
}
