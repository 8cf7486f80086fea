//! Changes of one node.
ghost use Rattle.std.specs.Prelude.{◌≡◌, ◌<◌, length, OnOk};
ghost use Rattle.ff_contract.specs.Rises.{RisesBy};
ghost use Rattle.ff_machine.specs.Nodes as nodes;
ghost use Rattle.ff_operators.specs.Answers.{Answers, OnFault};
ghost use Rattle.ff_value.specs.Spelled.{IsWellSpelledCode};

use crate::edits::{NewHandlers, NewText, Started};
use crate::nodes::Nodes;
use ff_contract::Steps;
use ff_operators::Fail;
use ff_value::{Code, Fault, MOST_HANDLERS, NoMemory, NodeId, Text};
use std::sync::ledger::Ledger;

impl Nodes {
    /// Gives a node another text or label. It is refused with `Kind` exactly where its kind has
    /// none, and then nothing has changed.
    pub fn set_text<C: Ledger>(
        &mut self,
        n: NodeId,
        text: &Text,
        copies: &mut Steps<C>,
    ) -> Result<(), Fail>
        requires { n.0 < length self.old }
        ensures done { OnOk result (self.new ≡ nodes.text_set self.old n text.now) }
        ensures answer { Answers (nodes.text_fault self.old n) result }
        ensures kept { OnFault result (self.new ≡ self.old) }
        ensures copies { RisesBy 16 copies.old copies.new }
    {
        let node = self.at(n);
        if node.text().is_none() {
            return Err(Fail::Fault(Fault::Kind));
        }
        let change = NewText::of(text)?;
        self.change(n, change, copies)?;
        Ok(())
    }

    /// Gives a node a handler more, the last. It is refused with `Kind` where its kind has no
    /// handlers or the function hasn't one parameter, and else with `Limit` where it has 16; then
    /// nothing has changed.
    pub fn add_handler<C: Ledger>(
        &mut self,
        n: NodeId,
        code: &Code,
        copies: &mut Steps<C>,
    ) -> Result<(), Fail>
        requires lives { n.0 < length self.old }
        requires spelled { IsWellSpelledCode code.now }
        ensures done { OnOk result (self.new ≡ nodes.handler_added self.old n code.now) }
        ensures answer { Answers (nodes.handler_fault self.old n code.now) result }
        ensures kept { OnFault result (self.new ≡ self.old) }
        ensures copies { RisesBy 16 copies.old copies.new }
    {
        let node = self.at(n);
        if !node.may_have_handlers() || code.params.len() != 1 {
            return Err(Fail::Fault(Fault::Kind));
        }
        if node.handlers().len() >= MOST_HANDLERS {
            return Err(Fail::Fault(Fault::Limit));
        }
        let handlers = node.handlers_with(self.alloc, code)?;
        self.change(n, NewHandlers { handlers }, copies)?;
        Ok(())
    }

    /// Counts a script as started.
    pub fn start<C: Ledger>(&mut self, n: NodeId, copies: &mut Steps<C>) -> Result<(), NoMemory>
        requires { n.0 < length self.old }
        ensures done { OnOk result (self.new ≡ nodes.started self.old n) }
        ensures copies { RisesBy 16 copies.old copies.new }
    {
        let _known = self.alloc;
        self.change(n, Started, copies)
    }
}
