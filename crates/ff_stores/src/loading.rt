//! Loading, going, and windows that open and close.
ghost use Rattle.std.specs.Prelude.{◌≡◌, ◌<◌, ◌++◌, [], ◌∷◌, None, cond, length, IsTrue, IfOk, IfSome, OnOk, OnErr};
ghost use Rattle.std.specs.List.{AllByRecursion};
ghost use Rattle.std.specs.Option.{ForSome, option_copied};
ghost use Rattle.std.specs.Str.{IsUtf8};
ghost use Rattle.ff_contract.specs.Rises.{RisesBy};
ghost use Rattle.ff_name.specs.Address.{IsWellSpelled};
ghost use Rattle.ff_tree.specs.Spelled.{IsWellSpelledDoc};
ghost use Rattle.ff_machine.specs.Answers.{Makes, MakesIfRoom};
ghost use Rattle.ff_machine.specs.Nodes as nodes;
ghost use Rattle.ff_machine.specs.Stores as s;
ghost use Rattle.ff_machine.specs.Windows as w;
ghost use Rattle.ff_stores.specs.Copied.{showing, loading};
ghost use Rattle.ff_stores.specs.Opened.{opened};

use crate::sending::put;
use crate::stores::Stores;
use ff_contract::Steps;
use ff_machine::Dst;
use ff_name::{NoMemory, Text, Url};
use ff_operators::Fail;
use ff_value::{Docs, NodeId, Out, PageId, WinId};
use ff_windows::Windows;
use std::alloc::AllocError;
use std::sync::ledger::Ledger;

impl Stores {
    /// An open window shows a page made of the documents, whose scripts are started, where there is
    /// room for it; answers whether there is.
    pub fn load<C: Ledger>(
        &mut self,
        window: WinId,
        url: &Url,
        docs: &Docs,
        outs: &mut Vec<Out>,
        copies: &mut Steps<C>,
    ) -> Result<bool, NoMemory>
        requires is_open { IsTrue (w.is_open self.old.windows window) }
        requires url { IsWellSpelled url.now }
        requires docs { AllByRecursion IsWellSpelledDoc docs.now }
        ensures step { MakesIfRoom self.old self.new outs.old.items outs.new.items
            (s.load self.old window url.now docs.now) result }
        ensures copies { RisesBy (loading self.old window url.now docs.now) copies.old copies.new }
    {
        let page = self.windows.next_page();
        let root = NodeId(self.nodes.len());
        if !self.show(window, url, docs, copies)? {
            return Ok(false);
        }
        self.put_loaded(window, url, root, outs)?;
        self.start(page, root, outs, copies)?;
        Ok(true)
    }

    /// A page of the documents is made and shown in a window, where there is room for it.
    fn show<C: Ledger>(
        &mut self,
        window: WinId,
        url: &Url,
        docs: &Docs,
        copies: &mut Steps<C>,
    ) -> Result<bool, NoMemory>
        requires is_open { IsTrue (w.is_open self.old.windows window) }
        requires url { IsWellSpelled url.now }
        requires docs { AllByRecursion IsWellSpelledDoc docs.now }
        ensures answer { IfOk result (λ b. b ≡ s.has_load_room self.old docs.now) }
        ensures done { OnOk result (self.new ≡ cond (s.has_load_room self.old docs.now)
            (s.with_shown_page self.old window url.now docs.now) self.old) }
        ensures copies { RisesBy (showing self.old docs.now) copies.old copies.new }
    {
        if !self.windows.room() {
            return Ok(false);
        }
        let page = self.windows.next_page();
        let act = self.windows.next_act();
        let root = match self.nodes.load(docs, page, act, copies) {
            Ok(root) => root,
            Err(Fail::Fault(_full)) => return Ok(false),
            Err(Fail::NoMemory) => {
                nothing_left!(self);
                return Err(AllocError);
            }
        };
        match show_new(&mut self.windows, window, url, root, copies) {
            Ok(()) => Ok(true),
            Err(refused) => {
                nothing_left!(self);
                Err(refused)
            }
        }
    }

    /// Puts what is loaded in a window.
    fn put_loaded(
        &self,
        window: WinId,
        url: &Url,
        root: NodeId,
        outs: &mut Vec<Out>,
    ) -> Result<(), NoMemory>
        requires { root.0 < length self.now.nodes }
        ensures done { OnOk result (outs.new.items
            ≡ outs.old.items ++ Out.Loaded (s.place self.now window) url.now
            (nodes.shown self.now.nodes root) ∷ []) }
        ensures kept { OnErr result (outs.new.items ≡ outs.old.items) }
    {
        let place = self.windows.position(window).unwrap_or(0);
        let shown = self.nodes.shown(root)?;
        put(outs, Out::Loaded(place, url.copy()?, shown))
    }

    /// An open window goes to an address, where there is room; answers whether there is. It shows
    /// an empty page, or a request is sent for it.
    pub fn go<C: Ledger>(
        &mut self,
        window: WinId,
        url: &Url,
        outs: &mut Vec<Out>,
        copies: &mut Steps<C>,
    ) -> Result<bool, NoMemory>
        requires is_open { IsTrue (w.is_open self.old.windows window) }
        requires url { IsWellSpelled url.now }
        ensures step { MakesIfRoom self.old self.new outs.old.items outs.new.items
            (s.go self.old window url.now) result }
        ensures copies { RisesBy 94 copies.old copies.new }
    {
        match url {
            Url::Blank => {
                let docs = Docs::from_vec(self.alloc, Vec::new(self.alloc))?;
                self.load(window, url, &docs, outs, copies)
            }
            Url::At(domain, uri) => {
                let body = Text::of_utf8(self.alloc, b"")?;
                self.send(domain, uri, &body, Dst::Window(window), outs, copies)
            }
        }
    }

    /// Opens a window with a blank page, where there is room for it; answers the window.
    pub fn open_window<C: Ledger>(
        &mut self,
        name: Option<&Text>,
        opener: Option<WinId>,
        outs: &mut Vec<Out>,
        copies: &mut Steps<C>,
    ) -> Result<Option<WinId>, NoMemory>
        requires { ForSome opener (λ o. o.0 < length self.old.windows.windows) }
        ensures step { MakesIfRoom self.old self.new outs.old.items outs.new.items
            (s.open_window self.old (option_copied name.entry) opener) (opened result) }
        ensures number { IfOk result (λ found. IfSome found
            (λ n. n ≡ w.next_win self.old.windows)) }
        ensures copies { RisesBy 92 copies.old copies.new }
    {
        let window = self.windows.next_win();
        if !self.make_window(name, opener, copies)? {
            return Ok(None);
        }
        put(outs, Out::Opened)?;
        Ok(Some(window))
    }

    /// A window is made with a blank page, where there is room for it.
    fn make_window<C: Ledger>(
        &mut self,
        name: Option<&Text>,
        opener: Option<WinId>,
        copies: &mut Steps<C>,
    ) -> Result<bool, NoMemory>
        requires { ForSome opener (λ o. o.0 < length self.old.windows.windows) }
        ensures answer { IfOk result (λ b. b ≡ s.has_window_room self.old) }
        ensures done { OnOk result (self.new ≡ cond (s.has_window_room self.old)
            (s.with_window self.old (option_copied name.entry) opener) self.old) }
        ensures copies { RisesBy 92 copies.old copies.new }
    {
        if !self.windows.can_add() {
            return Ok(false);
        }
        read_name(name);
        let page = self.windows.next_page();
        let act = self.windows.next_act();
        let docs = Docs::from_vec(self.alloc, Vec::new(self.alloc))?;
        let root = match self.nodes.load(&docs, page, act, copies) {
            Ok(root) => root,
            Err(Fail::Fault(_full)) => return Ok(false),
            Err(Fail::NoMemory) => {
                nothing_left!(self);
                return Err(AllocError);
            }
        };
        match add_new(&mut self.windows, name, opener, root, copies) {
            Ok(()) => Ok(true),
            Err(refused) => {
                nothing_left!(self);
                Err(refused)
            }
        }
    }

    /// The user opens a window at an address, where there is room for it; then a request is sent
    /// for it, where there is room for that.
    pub fn opens<C: Ledger>(
        &mut self,
        url: &Url,
        outs: &mut Vec<Out>,
        copies: &mut Steps<C>,
    ) -> Result<(), NoMemory>
        requires { IsWellSpelled url.now }
        ensures step { Makes self.old self.new outs.old.items outs.new.items
            (s.opens self.old url.now) result }
        ensures copies { RisesBy 125 copies.old copies.new }
    {
        match self.open_window(None, None, outs, copies)? {
            None => Ok(()),
            Some(window) => self.send_first(url, window, outs, copies),
        }
    }

    /// Asks for the address of a new window.
    fn send_first<C: Ledger>(
        &mut self,
        url: &Url,
        window: WinId,
        outs: &mut Vec<Out>,
        copies: &mut Steps<C>,
    ) -> Result<(), NoMemory>
        requires url { IsWellSpelled url.now }
        requires lives { window.0 < length self.old.windows.windows }
        ensures step { Makes self.old self.new outs.old.items outs.new.items
            (s.send_first url.now window self.old) result }
        ensures copies { RisesBy 33 copies.old copies.new }
    {
        match url {
            Url::Blank => Ok(()),
            Url::At(domain, uri) => {
                let body = Text::of_utf8(self.alloc, b"")?;
                self.send(domain, uri, &body, Dst::Window(window), outs, copies)?;
                Ok(())
            }
        }
    }

    /// Closes a window.
    pub fn close_window<C: Ledger>(
        &mut self,
        window: WinId,
        outs: &mut Vec<Out>,
        copies: &mut Steps<C>,
    ) -> Result<(), NoMemory>
        ensures step { Makes self.old self.new outs.old.items outs.new.items
            (s.close_window self.old window) result }
        ensures copies { copies.new ≡ copies.old }
    {
        let place = self.windows.position(window).unwrap_or(0);
        put(outs, Out::Closed(place))?;
        match self.windows.close(window, copies) {
            Ok(_was) => Ok(()),
            Err(refused) => {
                nothing_left!(self);
                Err(refused)
            }
        }
    }
}

/// Makes a page of a window and shows it there.
fn show_new<C: Ledger>(
    windows: &mut Windows,
    window: WinId,
    url: &Url,
    root: NodeId,
    copies: &mut Steps<C>,
) -> Result<(), NoMemory>
    requires is_open { IsTrue (w.is_open windows.old window) }
    requires lives { window.0 < length windows.old.windows }
    requires url { IsWellSpelled url.now }
    ensures done { OnOk result (windows.new
        ≡ w.page_shown (w.with_page windows.old url.now window root) window
        (w.next_page windows.old)) }
    ensures copies { RisesBy 47 copies.old copies.new }
{
    match windows.add_page(url, window, root, copies) {
        Ok(page) => windows.show_page(window, page, copies),
        Err(_refused) => Err(AllocError),
    }
}

/// Makes a window with a blank page.
fn add_new<C: Ledger>(
    windows: &mut Windows,
    name: Option<&Text>,
    opener: Option<WinId>,
    root: NodeId,
    copies: &mut Steps<C>,
) -> Result<(), NoMemory>
    requires { ForSome opener (λ o. o.0 < length windows.old.windows) }
    ensures done { OnOk result (windows.new
        ≡ w.with_window (w.with_page windows.old Url.Blank (w.next_win windows.old) root)
        (option_copied name.entry) opener (w.next_page windows.old)) }
    ensures copies { RisesBy 45 copies.old copies.new }
{
    let window = windows.next_win();
    match windows.add_page(&Url::Blank, window, root, copies) {
        Ok(page) => match windows.add_window(name, opener, page, copies) {
            Ok(_window) => Ok(()),
            Err(_refused) => Err(AllocError),
        },
        Err(_refused) => Err(AllocError),
    }
}

/// A name, if there is one, is a text.
fn read_name(name: Option<&Text>)
    ensures { ForSome (option_copied name.entry) IsUtf8 }
{
    if let Some(text) = name {
        let _known = text.as_bytes();
    }
}
