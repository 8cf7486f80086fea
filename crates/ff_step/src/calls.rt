//! The call of a function: its activation and its body are found first, and are then put for the
//! redex.
ghost use Rattle.std.specs.Prelude.{◌≡◌, ◌+◌, ◌*◌, ◌<◌, ◌↔◌, false, length, All, IfOk, IsTrue};
ghost use Rattle.ff_contract.specs.Rises.{RisesBy};
ghost use Rattle.ff_term.specs.Running.{insides, is_value};
ghost use Rattle.ff_machine.specs.Reduction as red;
ghost use Rattle.ff_machine.specs.References.{made};
ghost use Rattle.ff_machine.specs.Valid.{IsCode, IsVal};
ghost use Rattle.ff_step.specs.Answered.{answered};
ghost use Rattle.ff_step.specs.Calls.{Calls, Enters};
ghost use Rattle.ff_step.specs.Copies.{called};

use ff_contract::Steps;
use ff_frames::Control;
use ff_operators::Fail;
use ff_store_operators::Stores;
use ff_term::MOST_CALLS;
use ff_value::{ActId, Body, Code, Fault, Val};
use std::alloc::Global;
use std::sync::ledger::Ledger;

/// Makes the activation of a function's call that stands inside so many others; gives it, and the
/// body that runs in it. Its fault is `Kind`, where no function is called.
#[inline(never)]
pub(crate) fn call<C: Ledger>(
    depth: u32,
    stores: &mut Stores,
    f: &Val,
    args: &[Val],
    copies: &mut Steps<C>,
) -> Result<(ActId, Body), Fail>
    requires function { IsVal (made stores.old) f.now }
    requires args { All (IsVal (made stores.old)) args.now }
    ensures calls { Calls (red.call stores.old depth f.now args.now) result stores.old stores.new }
    ensures shallow { IfOk result (λ _. depth < MOST_CALLS) }
    ensures copies { RisesBy (called f.now) copies.old copies.new }
{
    match f {
        Val::Code(code) => call_code(depth, stores, code, args, copies),
        _ => Err(Fail::Fault(Fault::Kind)),
    }
}

/// The same of a function. Its faults are, in order: `Kind`, for another number of arguments;
/// `Depth`, inside too many calls; `Limit`.
fn call_code<C: Ledger>(
    depth: u32,
    stores: &mut Stores,
    code: &Code,
    args: &[Val],
    copies: &mut Steps<C>,
) -> Result<(ActId, Body), Fail>
    requires function { IsCode (made stores.old) code.now }
    requires args { All (IsVal (made stores.old)) args.now }
    ensures calls { Calls (red.or_fault (red.enter_fault stores.old depth code.now args.now)
        (red.entered stores.old code.now args.now)) result stores.old stores.new }
    ensures shallow { IfOk result (λ _. depth < MOST_CALLS) }
    ensures copies { RisesBy (64 * (length code.now.params + 1)) copies.old copies.new }
{
    if !takes(code, args) {
        return Err(Fail::Fault(Fault::Kind));
    }
    if depth >= MOST_CALLS {
        return Err(Fail::Fault(Fault::Depth));
    }
    let act = stores.new_act(code.env, &code.params, args, copies)?;
    Ok((act, code.body.copy()?))
}

/// Whether the function has as many parameters as there are arguments.
fn takes(code: &Code, args: &[Val]) -> bool
    ensures { IsTrue result ↔ (length code.now.params ≡ length args.now) }
{
    code.params.len() == args.len()
}

/// Puts the call that was found for the redex, or hands on why there is none.
#[inline(never)]
pub(crate) fn enter(
    alloc: Global,
    control: &mut Control,
    got: Result<(ActId, Body), Fail>,
) -> Result<(), Fail>
    requires unfinished { is_value control.old.expr ≡ false }
    requires shallow { IfOk got (λ _. insides control.old.expr < MOST_CALLS) }
    ensures { Enters control.old got (answered result) control.new }
{
    match got {
        Ok((act, body)) => Ok(control.enter(alloc, act, &body)?),
        Err(fail) => Err(fail),
    }
}
