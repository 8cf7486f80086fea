//! Sending requests, and what is put.
ghost use Rattle.std.specs.Prelude.{◌≡◌, ◌++◌, [], ◌∷◌, OnOk, OnErr};
ghost use Rattle.ff_contract.specs.Rises.{RisesBy};
ghost use Rattle.ff_name.specs.Address.{IsRequest};
ghost use Rattle.ff_machine.specs.Alone.{IsDst};
ghost use Rattle.ff_machine.specs.Answers.{MakesIfRoom};
ghost use Rattle.ff_machine.specs.References.{DstRefers, made};
ghost use Rattle.ff_machine.specs.Stores as s;

use crate::stores::Stores;
use ff_contract::Steps;
use ff_machine::Dst;
use ff_name::{Domain, NoMemory, Text};
use ff_value::Out;
use std::sync::ledger::Ledger;

/// Puts an output behind the others.
pub(crate) fn put(outs: &mut Vec<Out>, out: Out) -> Result<(), NoMemory>
    ensures done { OnOk result (outs.new.items ≡ outs.old.items ++ out ∷ []) }
    ensures kept { OnErr result (outs.new.items ≡ outs.old.items) }
{
    outs.push(out)?;
    Ok(())
}

impl Stores {
    /// Sends a request to a domain, with the domain's cookies, where there is room for it; answers
    /// whether there is. Its reply is for `to`.
    pub fn send<C: Ledger>(
        &mut self,
        domain: &Domain,
        uri: &Text,
        body: &Text,
        to: Dst,
        outs: &mut Vec<Out>,
        copies: &mut Steps<C>,
    ) -> Result<bool, NoMemory>
        requires uri { IsRequest uri.now }
        requires to { IsDst to }
        requires refers { DstRefers (made self.old) to }
        ensures step { MakesIfRoom self.old self.new outs.old.items outs.new.items
            (s.send self.old domain.now uri.now body.now to) result }
        ensures copies { RisesBy 33 copies.old copies.new }
    {
        if !self.requests.room(domain) {
            return Ok(false);
        }
        let _known = domain.text();
        let request = Out::Send(
            domain.copy()?,
            uri.copy()?,
            self.jar.of(domain)?,
            body.copy()?,
        );
        match self.requests.ask(domain, uri, to, copies) {
            Ok(()) => {}
            Err(refused) => {
                nothing_left!(self);
                return Err(refused);
            }
        }
        put(outs, request)?;
        Ok(true)
    }
}
