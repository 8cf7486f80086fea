//! What a state makes of an input: the acts of the user.
ghost use Rattle.std.specs.Prelude.{◌≡◌, ◌<◌, ◌≤◌, List, IsTrue, length, IfSome};
ghost use Rattle.ff_name.specs.Address.{IsWellSpelled};
ghost use Rattle.ff_value.specs.Spelled.{IsWellSpelledAct, IsWellSpelledInput};
ghost use Rattle.ff_machine.specs.Answers.{Makes};
ghost use Rattle.ff_machine.specs.Inputs as inputs;
ghost use Rattle.ff_machine.specs.Valid.{IsStores};
ghost use Rattle.ff_machine.specs.Windows as windows;

use crate::parts::Parts;
use ff_contract::Steps;
use ff_machine::Kind;
use ff_name::{NoMemory, Text, Url};
use ff_value::{Act, Input, NodeId, Out, WinId};
use std::sync::ledger::Ledger;

impl Parts {
    /// An input brings fuel and its act is performed: the browser is then not quiet.
    #[tactic(auto, unfolding(ff_machine::specs::Inputs::begin))]
    pub(crate) fn begin<C: Ledger>(
        &mut self,
        input: &Input,
        outs: &mut Vec<Out>,
        copies: &mut Steps<C>,
    ) -> Result<(), NoMemory>
        requires input { IsWellSpelledInput input.now }
        requires stores { IsStores self.old.stores }
        ensures step { Makes self.old self.new outs.old.items outs.new.items
            (inputs.begin self.old input.now) result }
        ensures later { copies.old ≤ copies.new }
    {
        self.fuel = self.budget;
        self.quiet = false;
        self.perform(&input.act, outs, copies)
    }

    fn perform<C: Ledger>(
        &mut self,
        act: &Act,
        outs: &mut Vec<Out>,
        copies: &mut Steps<C>,
    ) -> Result<(), NoMemory>
        requires act { IsWellSpelledAct act.now }
        requires stores { IsStores self.old.stores }
        ensures step { Makes self.old self.new outs.old.items outs.new.items
            (inputs.perform self.old act.now) result }
        ensures later { copies.old ≤ copies.new }
    {
        match act {
            Act::Opens(url) => self.stores.opens(url, outs, copies),
            Act::Goes(at, url) => match self.user_window(*at) {
                Some(window) => self.goes(window, url, outs, copies),
                None => Ok(()),
            },
            Act::Links(at, n) => match self.user_window(*at) {
                Some(window) => self.links(window, *n, outs, copies),
                None => Ok(()),
            },
            Act::Closes(at) => match self.user_window(*at) {
                Some(window) => self.closes(window, outs, copies),
                None => Ok(()),
            },
            Act::Types(at, n, text) => match self.user_window(*at) {
                Some(window) => self.types(window, *n, text, copies),
                None => Ok(()),
            },
            Act::Clicks(at, n) => match self.user_window(*at) {
                Some(window) => self.clicks(window, *n),
                None => Ok(()),
            },
            Act::Replies(domain, k, resp) => self.replies(domain, *k, resp, outs, copies),
        }
    }

    /// The open window at a place, counted from 0 in order of opening.
    fn user_window(&self, at: u32) -> Option<WinId>
        ensures value { result ≡ inputs.user_window self.now at }
        ensures open { IfSome result (λ n. IsTrue (windows.is_open self.now.stores.windows n)) }
    {
        self.stores.windows().at(at)
    }

    /// A window goes to an address, where there is room.
    fn goes<C: Ledger>(
        &mut self,
        window: WinId,
        url: &Url,
        outs: &mut Vec<Out>,
        copies: &mut Steps<C>,
    ) -> Result<(), NoMemory>
        requires open { IsTrue (windows.is_open self.old.stores.windows window) }
        requires url { IsWellSpelled url.now }
        ensures step { Makes self.old self.new outs.old.items outs.new.items
            (inputs.goes self.old url.now window) result }
        ensures later { copies.old ≤ copies.new }
    {
        self.stores.go(window, url, outs, copies)?;
        Ok(())
    }

    /// The user follows a link of a window: the n-th, counted from 0.
    fn links<C: Ledger>(
        &mut self,
        window: WinId,
        n: u32,
        outs: &mut Vec<Out>,
        copies: &mut Steps<C>,
    ) -> Result<(), NoMemory>
        requires open { IsTrue (windows.is_open self.old.stores.windows window) }
        ensures step { Makes self.old self.new outs.old.items outs.new.items
            (inputs.links self.old n window) result }
        ensures later { copies.old ≤ copies.new }
    {
        let Some(link) = self.node_of(window, Kind::Link, n) else {
            return Ok(());
        };
        let url = match self.stores.nodes().url(link) {
            Some(url) => url.copy()?,
            None => return Ok(()),
        };
        self.goes(window, &url, outs, copies)
    }

    /// The user closes a window.
    fn closes<C: Ledger>(
        &mut self,
        window: WinId,
        outs: &mut Vec<Out>,
        copies: &mut Steps<C>,
    ) -> Result<(), NoMemory>
        ensures step { Makes self.old self.new outs.old.items outs.new.items
            (inputs.closes self.old window) result }
        ensures later { copies.old ≤ copies.new }
    {
        self.stores.close_window(window, outs, copies)
    }

    /// The user types a text into a box of a window: the n-th, counted from 0.
    fn types<C: Ledger>(
        &mut self,
        window: WinId,
        n: u32,
        text: &Text,
        copies: &mut Steps<C>,
    ) -> Result<(), NoMemory>
        requires open { IsTrue (windows.is_open self.old.stores.windows window) }
        ensures step { (puts : List Out) → Makes self.old self.new puts puts
            (inputs.types self.old n text.now window) result }
        ensures later { copies.old ≤ copies.new }
    {
        let Some(field) = self.node_of(window, Kind::TextBox, n) else {
            return Ok(());
        };
        if self.stores.type_text(field, text, copies)? {
            self.call_handlers(window, field)?;
        }
        Ok(())
    }

    /// The user clicks a button of a window: the n-th, counted from 0.
    fn clicks(&mut self, window: WinId, n: u32) -> Result<(), NoMemory>
        requires open { IsTrue (windows.is_open self.old.stores.windows window) }
        ensures step { (puts : List Out) → Makes self.old self.new puts puts
            (inputs.clicks self.old n window) result }
    {
        match self.node_of(window, Kind::Button, n) {
            Some(button) => self.call_handlers(window, button),
            None => Ok(()),
        }
    }

    /// The node of a kind and number in the page of an open window.
    fn node_of(&self, window: WinId, kind: Kind, n: u32) -> Option<NodeId>
        requires { IsTrue (windows.is_open self.now.stores.windows window) }
        ensures value { result ≡ inputs.user_node self.now window kind n }
        ensures within { IfSome result (λ m. m.0 < length self.now.stores.nodes) }
        ensures window { window.0 < length self.now.stores.windows.windows }
    {
        let page = self.stores.windows().page(window);
        let root = self.stores.windows().root_of(page);
        self.stores.nodes().nth(root, kind, n)
    }
}
