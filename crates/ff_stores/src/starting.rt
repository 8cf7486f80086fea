//! Starting the scripts of a tree.
ghost use Rattle.std.specs.Prelude.{◌≡◌, ◌<◌, None, true, length, sum_by, OnOk};
ghost use Rattle.std.specs.Option.{ForSome};
ghost use Rattle.ff_contract.specs.Rises.{RisesBy};
ghost use Rattle.ff_name.specs.Address.{IsRequest, IsWellSpelled};
ghost use Rattle.ff_tree.specs.Spelled.{IsWellSpelledExpr};
ghost use Rattle.ff_machine.specs.Answers.{Makes};
ghost use Rattle.ff_machine.specs.Nodes as t;
ghost use Rattle.ff_machine.specs.Shapes.{body_of, is_unstarted};
ghost use Rattle.ff_machine.specs.Stores as s;
ghost use Rattle.ff_machine.specs.Valid.{count_started};
ghost use Rattle.ff_stores.specs.Copied.{starting};

use crate::stores::Stores;
use ff_contract::Steps;
use ff_machine::Dst;
use ff_name::{Domain, NoMemory, Text, Url};
use ff_operators::or_emptied;
use ff_value::{Body, Expr, Lit, NodeId, Out, PageId, Shared};
use std::sync::ledger::Ledger;

impl Stores {
    /// Starts the scripts of a tree that weren't started, in preorder, in a page.
    pub fn start<C: Ledger>(
        &mut self,
        page: PageId,
        n: NodeId,
        outs: &mut Vec<Out>,
        copies: &mut Steps<C>,
    ) -> Result<(), NoMemory>
        requires page { page.0 < length self.old.windows.pages }
        requires lives { n.0 < length self.old.nodes }
        ensures step { Makes self.old self.new outs.old.items outs.new.items
            (s.start page n self.old) result }
        ensures copies { RisesBy (starting self.old.nodes n) copies.old copies.new }
    {
        let scripts = self.nodes.scripts(n)?;
        for script in scripts.as_slice() {
            self.start_one(page, *script, outs, copies)?;
        }
        Ok(())
    }

    /// Starts the scripts of a tree where there is a page that is live.
    pub(crate) fn start_in<C: Ledger>(
        &mut self,
        page: Option<PageId>,
        n: NodeId,
        outs: &mut Vec<Out>,
        copies: &mut Steps<C>,
    ) -> Result<(), NoMemory>
        requires page { ForSome page (λ p. p.0 < length self.old.windows.pages) }
        requires lives { n.0 < length self.old.nodes }
        ensures step { Makes self.old self.new outs.old.items outs.new.items
            (s.start_in page n self.old) result }
        ensures copies { RisesBy (starting self.old.nodes n) copies.old copies.new }
    {
        match page {
            None => Ok(()),
            Some(page) => {
                if self.windows.live(page) {
                    self.start(page, n, outs, copies)
                } else {
                    Ok(())
                }
            }
        }
    }

    /// Starts a script that wasn't started.
    fn start_one<C: Ledger>(
        &mut self,
        page: PageId,
        n: NodeId,
        outs: &mut Vec<Out>,
        copies: &mut Steps<C>,
    ) -> Result<(), NoMemory>
        requires page { page.0 < length self.old.windows.pages }
        requires unstarted { is_unstarted (t.node_at self.old.nodes n).shape ≡ true }
        requires lives { n.0 < length self.old.nodes }
        ensures step { Makes self.old self.new outs.old.items outs.new.items
            (s.start_one page n self.old) result }
        ensures copies { RisesBy 81 copies.old copies.new }
    {
        match self.nodes.body(n) {
            Some(body) => {
                let body = body.copy()?;
                self.mark_started(n, copies)?;
                self.queue(page, &body, copies)
            }
            None => self.start_fetched(page, n, outs, copies),
        }
    }

    /// Starts a script that is to be fetched and wasn't started.
    fn start_fetched<C: Ledger>(
        &mut self,
        page: PageId,
        n: NodeId,
        outs: &mut Vec<Out>,
        copies: &mut Steps<C>,
    ) -> Result<(), NoMemory>
        requires page { page.0 < length self.old.windows.pages }
        requires unstarted { is_unstarted (t.node_at self.old.nodes n).shape ≡ true }
        requires fetched { body_of (t.node_at self.old.nodes n).shape ≡ None }
        requires lives { n.0 < length self.old.nodes }
        ensures step { Makes self.old self.new outs.old.items outs.new.items
            (s.start_one page n self.old) result }
        ensures copies { RisesBy 81 copies.old copies.new }
    {
        match self.nodes.url(n) {
            Some(url) => {
                let url = url.copy()?;
                self.mark_started(n, copies)?;
                self.fetch(page, &url, outs, copies)
            }
            None => Ok(()),
        }
    }

    /// The node counts as a script that was started.
    fn mark_started<C: Ledger>(&mut self, n: NodeId, copies: &mut Steps<C>) -> Result<(), NoMemory>
        requires { n.0 < length self.old.nodes }
        ensures done { OnOk result (self.new ≡ record self.old
            { nodes = t.started self.old.nodes n }) }
        ensures copies { RisesBy 16 copies.old copies.new }
    {
        or_emptied!(self.nodes.start(n, copies), nothing_left!(self))
    }

    /// The script at an address is asked for, and a slot waits for it. Where there is no room for
    /// the request, `null` may run in its place.
    fn fetch<C: Ledger>(
        &mut self,
        page: PageId,
        url: &Url,
        outs: &mut Vec<Out>,
        copies: &mut Steps<C>,
    ) -> Result<(), NoMemory>
        requires page { page.0 < length self.old.windows.pages }
        requires url { IsWellSpelled url.now }
        requires entries { sum_by (λ p. length p.queue) self.old.windows.pages
            < count_started self.old.nodes }
        requires slots { sum_by (λ p. p.next) self.old.windows.pages
            < count_started self.old.nodes }
        ensures step { Makes self.old self.new outs.old.items outs.new.items
            (s.fetched_from self.old page url.now) result }
        ensures copies { RisesBy 65 copies.old copies.new }
    {
        match url {
            Url::Blank => Ok(()),
            Url::At(domain, uri) => self.fetch_at(page, domain, uri, outs, copies),
        }
    }

    fn fetch_at<C: Ledger>(
        &mut self,
        page: PageId,
        domain: &Domain,
        uri: &Text,
        outs: &mut Vec<Out>,
        copies: &mut Steps<C>,
    ) -> Result<(), NoMemory>
        requires page { page.0 < length self.old.windows.pages }
        requires uri { IsRequest uri.now }
        requires entries { sum_by (λ p. length p.queue) self.old.windows.pages
            < count_started self.old.nodes }
        requires slots { sum_by (λ p. p.next) self.old.windows.pages
            < count_started self.old.nodes }
        ensures step { Makes self.old self.new outs.old.items outs.new.items
            (s.fetched self.old page domain.now uri.now) result }
        ensures copies { RisesBy 65 copies.old copies.new }
    {
        let slot = self.windows.next_slot(page);
        let body = Text::of_utf8(self.alloc, b"")?;
        if self.send(domain, uri, &body, Dst::Slot(page, slot), outs, copies)? {
            self.push_slot(page, copies)
        } else {
            let null = Shared::new(self.alloc, Expr::Lit(Lit::Null))?;
            self.queue(page, &null, copies)
        }
    }

    /// Puts a script into the page's queue.
    fn queue<C: Ledger>(
        &mut self,
        page: PageId,
        body: &Body,
        copies: &mut Steps<C>,
    ) -> Result<(), NoMemory>
        requires page { page.0 < length self.old.windows.pages }
        requires spelled { IsWellSpelledExpr body.now }
        requires entries { sum_by (λ p. length p.queue) self.old.windows.pages
            < count_started self.old.nodes }
        requires slots { sum_by (λ p. p.next) self.old.windows.pages
            < count_started self.old.nodes }
        ensures done { OnOk result (self.new ≡ (s.queued self.old page body.now).after) }
        ensures copies { RisesBy 32 copies.old copies.new }
    {
        or_emptied!(
            self.windows.push_ready(page, body, copies),
            nothing_left!(self)
        )
    }

    /// Puts a waiting slot into the page's queue.
    fn push_slot<C: Ledger>(&mut self, page: PageId, copies: &mut Steps<C>) -> Result<(), NoMemory>
        requires page { page.0 < length self.old.windows.pages }
        requires entries { sum_by (λ p. length p.queue) self.old.windows.pages
            < count_started self.old.nodes }
        requires slots { sum_by (λ p. p.next) self.old.windows.pages
            < count_started self.old.nodes }
        ensures done { OnOk result (self.new ≡ (s.slotted page self.old).after) }
        ensures copies { RisesBy 32 copies.old copies.new }
    {
        match self.windows.push_wait(page, copies) {
            Ok(_slot) => Ok(()),
            Err(refused) => {
                nothing_left!(self);
                Err(refused)
            }
        }
    }
}
