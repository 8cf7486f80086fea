//! Trees, texts and handlers.
ghost use Rattle.std.specs.Prelude.{◌≡◌, ◌+◌, ◌*◌, ◌<◌, None, true, length, is_some, unwrap_or, nat_abs, IfOk, OnOk};
ghost use Rattle.std.specs.Option.{ForSome};
ghost use Rattle.ff_contract.specs.Rises.{RisesBy};
ghost use Rattle.ff_operators.specs.Answers.{Answers, OnFault};
ghost use Rattle.ff_tree.specs.Spelled.{IsWellSpelledDoc};
ghost use Rattle.ff_machine.specs.Nodes as t;
ghost use Rattle.ff_machine.specs.Stores as s;
ghost use Rattle.ff_machine.specs.Reduction as red;
ghost use Rattle.ff_machine.specs.Answers.{Tries};
ghost use Rattle.ff_machine.specs.References.{made};
ghost use Rattle.ff_machine.specs.Valid.{IsCode};
ghost use Rattle.ff_machine.specs.Documents.{laid};
ghost use Rattle.ff_stores.specs.Copied.{starting};

use crate::stores::Stores;
use crate::touched::Touched;
use ff_contract::Steps;
use ff_name::{NoMemory, Text};
use ff_operators::{Fail, MOST_MASS, fault_or_emptied};
use ff_value::{ActId, Code, Doc, Fault, NodeId, Out, PageId, weight_doc};
use std::alloc::AllocError;
use std::sync::ledger::Ledger;

impl Stores {
    /// Makes a tree without a parent, whose handlers are made in the activation. It is refused with
    /// `Limit` exactly where the mass or the nodes would pass their limit.
    pub fn make_tree<C: Ledger>(
        &mut self,
        a: ActId,
        doc: &Doc,
        copies: &mut Steps<C>,
    ) -> Result<NodeId, Fail>
        requires lives { a.0 < length self.old.windows.acts }
        requires spelled { IsWellSpelledDoc doc.now }
        ensures done { OnOk result (self.new ≡ red.with_tree self.old a doc.now) }
        ensures number { IfOk result (λ n. n ≡ t.next_node self.old.nodes) }
        ensures answer { Answers (red.tree_fault self.old a doc.now) result }
        ensures kept { OnFault result (self.new ≡ self.old) }
        ensures copies { RisesBy (47 * (laid a doc.now).size) copies.old copies.new }
    {
        let weight = weight_doc(doc);
        if weight > MOST_MASS - self.mass {
            return Err(Fail::Fault(Fault::Limit));
        }
        match self.nodes.make(doc, a, copies) {
            Ok(n) => {
                self.mass += weight;
                Ok(n)
            }
            Err(Fail::Fault(fault)) => Err(Fail::Fault(fault)),
            Err(Fail::NoMemory) => {
                nothing_left!(self);
                Err(Fail::NoMemory)
            }
        }
    }

    /// A script sets the text of a node. It is refused with `Kind` exactly where the node's kind
    /// has none, and then with `Limit` exactly where the mass would pass its limit.
    pub fn set_text<C: Ledger>(
        &mut self,
        n: NodeId,
        text: &Text,
        copies: &mut Steps<C>,
    ) -> Result<(), Fail>
        requires { n.0 < length self.old.nodes }
        ensures done { OnOk result (self.new ≡ s.with_text self.old n text.now) }
        ensures answer { Answers (s.set_text_fault self.old n text.now) result }
        ensures kept { OnFault result (self.new ≡ self.old) }
        ensures copies { RisesBy 64 copies.old copies.new }
    {
        if self.nodes.text(n).is_none() {
            return Err(Fail::Fault(Fault::Kind));
        }
        if !self.may_weigh(text.as_bytes().len() as u64) {
            return Err(Fail::Fault(Fault::Limit));
        }
        match self.write_text(n, text, copies) {
            Ok(()) => Ok(()),
            Err(_refused) => Err(Fail::NoMemory),
        }
    }

    /// The user types a text into a box, where the mass is within its limit; answers whether it is.
    pub fn type_text<C: Ledger>(
        &mut self,
        n: NodeId,
        text: &Text,
        copies: &mut Steps<C>,
    ) -> Result<bool, NoMemory>
        requires lives { n.0 < length self.old.nodes }
        requires has_text { t.text_fault self.old.nodes n ≡ None }
        ensures answer { IfOk result (λ b. b ≡ is_some (s.type_text self.old n text.now)) }
        ensures done { OnOk result (self.new ≡ unwrap_or (s.type_text self.old n text.now)
            self.old) }
        ensures copies { RisesBy 64 copies.old copies.new }
    {
        if !self.may_weigh(text.as_bytes().len() as u64) {
            return Ok(false);
        }
        self.write_text(n, text, copies)?;
        Ok(true)
    }

    /// Writes the text of a node that has one, where the mass may grow by it.
    fn write_text<C: Ledger>(
        &mut self,
        n: NodeId,
        text: &Text,
        copies: &mut Steps<C>,
    ) -> Result<(), NoMemory>
        requires lives { n.0 < length self.old.nodes }
        requires has_text { t.text_fault self.old.nodes n ≡ None }
        requires light { s.may_weigh self.old (length text.now) ≡ true }
        ensures done { OnOk result (self.new ≡ s.with_text self.old n text.now) }
        ensures copies { RisesBy 64 copies.old copies.new }
    {
        let bytes = text.as_bytes();
        let page = self.nodes.page_root_of(n);
        match self.nodes.set_text(n, text, copies) {
            Ok(()) => {}
            Err(_refused) => {
                nothing_left!(self);
                return Err(AllocError);
            }
        }
        match touch(&mut self.touched, page) {
            Ok(()) => {
                self.mass += bytes.len() as u64;
                Ok(())
            }
            Err(refused) => {
                nothing_left!(self);
                Err(refused)
            }
        }
    }

    /// Gives a node a handler more. It is refused with `Kind` exactly where the node's kind has
    /// none, or the function hasn't one parameter, and then with `Limit` exactly where there are as
    /// many as may be.
    pub fn add_handler<C: Ledger>(
        &mut self,
        n: NodeId,
        code: &Code,
        copies: &mut Steps<C>,
    ) -> Result<(), Fail>
        requires lives { n.0 < length self.old.nodes }
        requires code { IsCode (made self.old) code.now }
        ensures done { OnOk result (self.new ≡ record self.old
            { nodes = t.handler_added self.old.nodes n code.now }) }
        ensures answer { Answers (t.handler_fault self.old.nodes n code.now) result }
        ensures kept { OnFault result (self.new ≡ self.old) }
        ensures copies { RisesBy 16 copies.old copies.new }
    {
        fault_or_emptied!(self.nodes.add_handler(n, code, copies), nothing_left!(self))
    }

    /// Puts a child under a parent at a place, and starts its scripts where the parent is in a live
    /// page. The refusals, in order: `Kind` where the parent's kind has no children or the child is
    /// a root; `Range` where the child has a parent, the parent is in the child's tree, or the
    /// place is none; `Limit` where a node would stand too deep.
    pub fn insert<C: Ledger>(
        &mut self,
        parent: NodeId,
        child: NodeId,
        at: i64,
        outs: &mut Vec<Out>,
        copies: &mut Steps<C>,
    ) -> Result<(), Fail>
        requires parent_lives { parent.0 < length self.old.nodes }
        requires child_lives { child.0 < length self.old.nodes }
        ensures step { Tries self.old self.new outs.old.items outs.new.items
            (t.insert_fault self.old.nodes parent child at)
            (s.insert self.old parent child (nat_abs at)) result }
        ensures copies { RisesBy (4128 + starting
            (t.joined self.old.nodes parent child (nat_abs at)) child) copies.old copies.new }
    {
        let page = self.join(parent, child, at, copies)?;
        self.start_in(page, child, outs, copies)?;
        Ok(())
    }

    /// Puts a child under a parent, whose page, if it is in one, counts as changed; answers the
    /// page.
    fn join<C: Ledger>(
        &mut self,
        parent: NodeId,
        child: NodeId,
        at: i64,
        copies: &mut Steps<C>,
    ) -> Result<Option<PageId>, Fail>
        requires parent_lives { parent.0 < length self.old.nodes }
        requires child_lives { child.0 < length self.old.nodes }
        ensures done { OnOk result (self.new ≡ record self.old {
          nodes = t.joined self.old.nodes parent child (nat_abs at);
          touched = s.touched_at
              self.old parent;
        }) }
        ensures page { IfOk result (λ page. page ≡ t.page_root_of self.old.nodes parent) }
        ensures there { IfOk result (λ page. ForSome page
            (λ p. p.0 < length self.new.windows.pages)) }
        ensures child { OnOk result (child.0 < length self.new.nodes) }
        ensures answer { Answers (t.insert_fault self.old.nodes parent child at) result }
        ensures kept { OnFault result (self.new ≡ self.old) }
        ensures copies { RisesBy 4128 copies.old copies.new }
    {
        let page = self.nodes.page_root_of(parent);
        match self.nodes.insert(parent, child, at, copies) {
            Ok(()) => {}
            Err(Fail::Fault(fault)) => return Err(Fail::Fault(fault)),
            Err(Fail::NoMemory) => {
                nothing_left!(self);
                return Err(Fail::NoMemory);
            }
        }
        match touch(&mut self.touched, page) {
            Ok(()) => Ok(page),
            Err(_refused) => {
                nothing_left!(self);
                Err(Fail::NoMemory)
            }
        }
    }
}

/// The page, where there is one, counts as changed.
fn touch(touched: &mut Touched, page: Option<PageId>) -> Result<(), NoMemory>
    ensures { OnOk result (touched.new ≡ s.touch page touched.old) }
{
    match page {
        None => Ok(()),
        Some(page) => touched.add(page),
    }
}
