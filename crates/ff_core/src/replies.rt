//! What a state makes of a reply.
ghost use Rattle.std.specs.Prelude.{◌≡◌, ◌<◌, ◌≤◌, List, length, IsTrue, IfOk};
ghost use Rattle.std.specs.List.{AllByRecursion};
ghost use Rattle.std.specs.Option.{ForSome, option_copied};
ghost use Rattle.ff_name.specs.Address.{IsRequest, IsWellSpelled};
ghost use Rattle.ff_name.specs.Spelling.{IsDomain};
ghost use Rattle.ff_tree.specs.Spelled.{IsWellSpelledDoc};
ghost use Rattle.ff_value.specs.Spelled.{IsWellSpelledResp};
ghost use Rattle.ff_machine.specs.Alone.{IsDst};
ghost use Rattle.ff_machine.specs.Answers.{Makes};
ghost use Rattle.ff_machine.specs.Inputs as inputs;
ghost use Rattle.ff_machine.specs.References.{DstRefers, made};
ghost use Rattle.ff_machine.specs.State as state;
ghost use Rattle.ff_machine.specs.Stores as stores;
ghost use Rattle.ff_machine.specs.Valid.{IsStores};
ghost use Rattle.ff_machine.specs.Windows as windows;

use crate::parts::Parts;
use ff_contract::Steps;
use ff_machine::{Dst, Pending};
use ff_name::{Domain, NoMemory, Url};
use ff_value::{
    Body, Code, Cookies, Docs, Expr, Lit, Out, PageId, Resp, Shared, Val, WinId, weight_resp,
};
use std::alloc::Global;
use std::sync::ledger::Ledger;

impl Parts {
    /// A reply to a pending request of a domain, the k-th counted from 0, if there is one.
    pub(crate) fn replies<C: Ledger>(
        &mut self,
        domain: &Domain,
        k: u32,
        resp: &Resp,
        outs: &mut Vec<Out>,
        copies: &mut Steps<C>,
    ) -> Result<(), NoMemory>
        requires resp { IsWellSpelledResp resp.now }
        requires stores { IsStores self.old.stores }
        ensures step { Makes self.old self.new outs.old.items outs.new.items
            (inputs.replies self.old domain.now k resp.now) result }
        ensures later { copies.old ≤ copies.new }
    {
        match self.stores.take_answer(domain, k, copies)? {
            Some(pending) => self.receive(domain, resp, &pending, outs, copies),
            None => Ok(()),
        }
    }

    /// A reply counts where its weight is within the limit: the mass grows by it, and its cookies
    /// are put. The destination gets it.
    fn receive<C: Ledger>(
        &mut self,
        domain: &Domain,
        resp: &Resp,
        pending: &Pending,
        outs: &mut Vec<Out>,
        copies: &mut Steps<C>,
    ) -> Result<(), NoMemory>
        requires resp { IsWellSpelledResp resp.now }
        requires uri { IsRequest pending.now.uri }
        requires to { IsDst pending.now.dst }
        requires refers { DstRefers (made self.old.stores) pending.now.dst }
        ensures step { Makes self.old self.new outs.old.items outs.new.items
            (inputs.receive self.old domain.now resp.now pending.now) result }
        ensures later { copies.old ≤ copies.new }
    {
        if !self.stores.weigh(weight_resp(resp)) {
            return self.deliver(domain, pending, None, outs, copies);
        }
        self.stores.put_cookies(domain, entries_of(resp), copies)?;
        self.deliver(domain, pending, Some(resp), outs, copies)
    }

    /// The destination of a request to a domain gets a reply, which counts or doesn't.
    fn deliver<C: Ledger>(
        &mut self,
        domain: &Domain,
        pending: &Pending,
        reply: Option<&Resp>,
        outs: &mut Vec<Out>,
        copies: &mut Steps<C>,
    ) -> Result<(), NoMemory>
        requires uri { IsRequest pending.now.uri }
        requires to { IsDst pending.now.dst }
        requires refers { DstRefers (made self.old.stores) pending.now.dst }
        requires reply { ForSome (option_copied reply) IsWellSpelledResp }
        ensures step { Makes self.old self.new outs.old.items outs.new.items
            (inputs.deliver self.old domain.now pending.now (option_copied reply.entry)) result }
        ensures later { copies.old ≤ copies.new }
    {
        match &pending.dst {
            Dst::Window(window) => {
                let from = Url::At(domain.copy()?, pending.uri.copy()?);
                self.load_reply(*window, &from, reply, outs, copies)
            }
            Dst::Slot(page, slot) => self.fill_reply(*page, *slot, reply, copies),
            Dst::Call(page, code) => self.call_reply(*page, code, reply),
        }
    }

    /// A window, where it is open, loads a page that counts, where there is room.
    fn load_reply<C: Ledger>(
        &mut self,
        window: WinId,
        from: &Url,
        reply: Option<&Resp>,
        outs: &mut Vec<Out>,
        copies: &mut Steps<C>,
    ) -> Result<(), NoMemory>
        requires from { IsWellSpelled from.now }
        requires reply { ForSome (option_copied reply) IsWellSpelledResp }
        ensures step { Makes self.old self.new outs.old.items outs.new.items
            (inputs.load_reply self.old window from.now (option_copied reply.entry)) result }
        ensures later { copies.old ≤ copies.new }
    {
        match reply {
            Some(Resp::Page(_cookies, docs)) => {
                if self.stores.windows().is_open(window) {
                    self.loads(window, from, docs, outs, copies)
                } else {
                    Ok(())
                }
            }
            _ => Ok(()),
        }
    }

    /// An open window loads documents from an address, where there is room.
    fn loads<C: Ledger>(
        &mut self,
        window: WinId,
        from: &Url,
        docs: &Docs,
        outs: &mut Vec<Out>,
        copies: &mut Steps<C>,
    ) -> Result<(), NoMemory>
        requires open { IsTrue (windows.is_open self.old.stores.windows window) }
        requires from { IsWellSpelled from.now }
        requires docs { AllByRecursion IsWellSpelledDoc docs.now }
        ensures step { Makes self.old self.new outs.old.items outs.new.items
            (state.if_room self.old (stores.load self.old.stores window from.now docs.now)) result }
        ensures later { copies.old ≤ copies.new }
    {
        self.stores.load(window, from, docs, outs, copies)?;
        Ok(())
    }

    /// A slot of a page, where the page is live and the slot waits, is filled: with the script of a
    /// reply that counts, else with `null`.
    fn fill_reply<C: Ledger>(
        &mut self,
        page: PageId,
        slot: u32,
        reply: Option<&Resp>,
        copies: &mut Steps<C>,
    ) -> Result<(), NoMemory>
        requires page { page.0 < length self.old.stores.windows.pages }
        requires reply { ForSome (option_copied reply) IsWellSpelledResp }
        ensures step { (puts : List Out) → Makes self.old self.new puts puts
            (inputs.fill_reply self.old page slot (option_copied reply.entry)) result }
        ensures later { copies.old ≤ copies.new }
    {
        if !self.stores.windows().live(page) {
            return Ok(());
        }
        let body = slot_body(self.alloc, reply)?;
        let _waited = self.stores.fill_slot(page, slot, &body, copies)?;
        Ok(())
    }

    /// A callback of a page, where the page is live, is to be called: with the text of data that
    /// count, else with `null`.
    fn call_reply(
        &mut self,
        page: PageId,
        code: &Code,
        reply: Option<&Resp>,
    ) -> Result<(), NoMemory>
        requires { page.0 < length self.old.stores.windows.pages }
        ensures step { (puts : List Out) → Makes self.old self.new puts puts
            (inputs.call_reply self.old page code.now (option_copied reply.entry)) result }
    {
        if self.stores.windows().live(page) {
            self.call_back(page, code, &call_value(reply)?)
        } else {
            Ok(())
        }
    }
}

/// The cookie entries of a reply.
fn entries_of(resp: &Resp) -> &Cookies
    ensures { result.now ≡ inputs.entries_of resp.now }
{
    match resp {
        Resp::Page(cookies, _docs) => cookies,
        Resp::Script(cookies, _body) => cookies,
        Resp::Data(cookies, _text) => cookies,
    }
}

/// The script for a slot.
fn slot_body(alloc: Global, reply: Option<&Resp>) -> Result<Body, NoMemory>
    ensures { IfOk result (λ body. body ≡ inputs.slot_body (option_copied reply.entry)) }
{
    match reply {
        Some(Resp::Script(_cookies, body)) => body.copy(),
        _ => Shared::new(alloc, Expr::Lit(Lit::Null)),
    }
}

/// The value for a callback.
fn call_value(reply: Option<&Resp>) -> Result<Val, NoMemory>
    ensures { IfOk result (λ v. v ≡ inputs.call_value (option_copied reply.entry)) }
{
    match reply {
        Some(Resp::Data(_cookies, text)) => Ok(Val::Str(text.copy()?)),
        _ => Ok(Val::Null),
    }
}
