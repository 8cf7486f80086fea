//! Trees that are made of documents.
ghost use Rattle.std.specs.Prelude.{◌≡◌, ◌*◌, ◌≤◌, map, IfOk, OnOk};
ghost use Rattle.std.specs.List.{AllByRecursion};
ghost use Rattle.ff_contract.specs.Rises.{RisesBy};
ghost use Rattle.ff_name.specs.declared.limits.TheConstants.{MOST_DEPTH};
ghost use Rattle.ff_tree.specs.Spelled.{IsSpelledDoc, IsWellSpelledDoc, doc_depth, most};
ghost use Rattle.ff_machine.specs.Documents.{laid, laid_page, with_tree};
ghost use Rattle.ff_machine.specs.Nodes as nodes;
ghost use Rattle.ff_operators.specs.Answers.{Answers, OnFault};

use crate::laying::{lay_doc, lay_page};
use crate::nodes::Nodes;
use crate::raising::raise_from;
use crate::room::{room_after, room_after_page};
use ff_contract::Steps;
use ff_machine::MOST_NODES;
use ff_operators::Fail;
use ff_value::{ActId, Doc, Docs, Fault, NodeId, PageId};
use std::sync::ledger::Ledger;

impl Nodes {
    /// Makes a tree of a document, which has no parent, and gives the number of its topmost node.
    /// Its nodes are numbered in preorder, and its handlers are functions made in `env`. It is
    /// refused with `Limit` exactly where there would be more than [`MOST_NODES`] nodes. After a
    /// fault nothing has changed. After want of memory the content isn't stated.
    pub fn make<C: Ledger>(
        &mut self,
        doc: &Doc,
        env: ActId,
        copies: &mut Steps<C>,
    ) -> Result<NodeId, Fail>
        requires { IsWellSpelledDoc doc.now }
        ensures done { OnOk result (self.new ≡ with_tree self.old (laid env doc.now)) }
        ensures number { IfOk result (λ n. n ≡ nodes.next_node self.old) }
        ensures answer { Answers (nodes.room_fault self.old (laid env doc.now).size) result }
        ensures kept { OnFault result (self.new ≡ self.old) }
        ensures copies { RisesBy (47 * (laid env doc.now).size) copies.old copies.new }
    {
        let n = self.len();
        if room_after(doc, MOST_NODES - n).is_none() {
            return Err(Fail::Fault(Fault::Limit));
        }
        let mut next = self.cells.fork(copies)?;
        lay_doc(doc, None, env, self.alloc, &mut next, copies)?;
        raise_from(&mut next, n, copies)?;
        self.cells = next;
        Ok(NodeId(n))
    }

    /// Makes the tree of a page: its root, and under it the documents. Numbers, handlers and the
    /// refusal are as of [`Nodes::make`].
    pub fn load<C: Ledger>(
        &mut self,
        docs: &Docs,
        page: PageId,
        env: ActId,
        copies: &mut Steps<C>,
    ) -> Result<NodeId, Fail>
        requires spelled { AllByRecursion IsSpelledDoc docs.now }
        requires shallow { most (map doc_depth docs.now) ≤ MOST_DEPTH }
        ensures done { OnOk result (self.new ≡ with_tree self.old (laid_page page env docs.now)) }
        ensures number { IfOk result (λ n. n ≡ nodes.next_node self.old) }
        ensures answer { Answers (nodes.room_fault self.old (laid_page page env docs.now).size)
            result }
        ensures kept { OnFault result (self.new ≡ self.old) }
        ensures copies { RisesBy (47 * (laid_page page env docs.now).size) copies.old copies.new }
    {
        let n = self.len();
        if room_after_page(docs.as_slice(), MOST_NODES - n).is_none() {
            return Err(Fail::Fault(Fault::Limit));
        }
        let mut next = self.cells.fork(copies)?;
        lay_page(docs.as_slice(), page, env, self.alloc, &mut next, copies)?;
        raise_from(&mut next, n, copies)?;
        self.cells = next;
        Ok(NodeId(n))
    }
}
