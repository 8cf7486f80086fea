ghost use Rattle.std.specs.Prelude.{◌≡◌, ◌≤◌, ◌+◌, true, IfOk, OnOk};
ghost use Rattle.ff_value.specs.Spelled.{IsWellSpelledInput};
ghost use Rattle.ff_session.specs.Handling.{IsReady, handled};

use crate::NoMemory;
use ff_contract::Steps;
use ff_pool::Reactor;
use ff_value::{Input, Out};
use std::alloc::Global;
use std::sync::ledger::Ledger;

/// Lets a quiet browser take an input and make its turns until it is quiet again: the outputs in
/// their order.
pub(crate) fn handle<B: Reactor, C: Ledger, L: Ledger>(
    alloc: Global,
    browser: &mut B,
    input: &Input,
    copies: &mut Steps<C>,
    turns: &mut Steps<L>,
) -> Result<Vec<Out>, NoMemory>
    requires input { IsWellSpelledInput input.now }
    requires quiet { (B.state browser.old).quiet ≡ true }
    ensures outputs { IfOk result (λ outs. outs.items
        ≡ (handled (B.state browser.old) input.now).outputs) }
    ensures state { OnOk result (B.state browser.new
        ≡ (handled (B.state browser.old) input.now).after) }
    ensures ready { OnOk result (IsReady (B.state browser.old).budget (B.state browser.new)) }
    ensures count { OnOk result (turns.new ≡ turns.old
        + (handled (B.state browser.old) input.now).turns) }
    ensures later { turns.old ≤ turns.new }
    ensures most { turns.new ≤ turns.old + (handled (B.state browser.old) input.now).turns }
    ensures later_copies { copies.old ≤ copies.new }
{
    let mut outs = Vec::new(alloc);
    browser.accept(input, &mut outs, copies)?;
    'turning: while !browser.quiet() {
        browser.turn(&mut outs, copies, turns)?;
    }
    Ok(outs)
}
