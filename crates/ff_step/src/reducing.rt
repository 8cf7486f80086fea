//! The one reduction: which row decides, and what is put for the redex.
ghost use Rattle.std.specs.Prelude.{◌≡◌, ◌<◌, false, length, IsTrue, OnErr};
ghost use Rattle.ff_contract.specs.Rises.{RisesBy};
ghost use Rattle.ff_operators.specs.Answers.{Gives};
ghost use Rattle.ff_term.specs.Redexes.{IsRedexOf, read_redex};
ghost use Rattle.ff_term.specs.Running as term;
ghost use Rattle.ff_term.specs.Running.{is_value};
ghost use Rattle.ff_frames.specs.Emptied.{emptied};
ghost use Rattle.ff_frames.specs.Lent.{named};
ghost use Rattle.ff_machine.specs.Answers.{Finishes, Reduces};
ghost use Rattle.ff_machine.specs.Reduction as red;
ghost use Rattle.ff_machine.specs.References.{made};
ghost use Rattle.ff_machine.specs.Valid.{IsRedex, IsRunning};
ghost use Rattle.ff_machine.specs.Windows.{is_live};
ghost use Rattle.ff_step.specs.Answered.{answered, tested};
ghost use Rattle.ff_step.specs.Copies.{working};

use crate::calls::{call, enter};
use crate::rows::{make, make_tree};
use ff_contract::Steps;
use ff_frames::{Control, Redex};
use ff_machine::Reduced;
use ff_name::NoMemory;
use ff_operators::Fail;
use ff_store_operators::{Stores, operate};
use ff_value::{ActId, Fault, Out, PageId, Val};
use std::alloc::{AllocError, Global};
use std::sync::ledger::Ledger;

/// Makes one reduction of the expression of a task of a live page. It is refused only for want of
/// memory, and then the control is that of `null`, which fits whatever stores are left; a fault is
/// an answer, with which nothing has changed.
pub fn reduce<C: Ledger>(
    alloc: Global,
    control: &mut Control,
    stores: &mut Stores,
    page: PageId,
    outs: &mut Vec<Out>,
    copies: &mut Steps<C>,
) -> Result<Reduced, NoMemory>
    requires act { control.old.base.0 < length stores.old.windows.acts }
    requires running { IsRunning (made stores.old) control.old.expr }
    requires live { IsTrue (is_live stores.old.windows page) }
    ensures reduces { Reduces (red.reduction stores.old page control.old) result control.new
        stores.new outs.old.items outs.new.items }
    ensures emptied { OnErr result (control.new ≡ emptied) }
    ensures copies { RisesBy (working stores.old control.old) copies.old copies.new }
{
    match reduce_once(alloc, control, stores, page, outs, copies) {
        Ok(reduced) => Ok(reduced),
        Err(error) => {
            control.clear(alloc);
            Err(error)
        }
    }
}

/// The same, but for what is left after want of memory.
fn reduce_once<C: Ledger>(
    alloc: Global,
    control: &mut Control,
    stores: &mut Stores,
    page: PageId,
    outs: &mut Vec<Out>,
    copies: &mut Steps<C>,
) -> Result<Reduced, NoMemory>
    requires act { control.old.base.0 < length stores.old.windows.acts }
    requires running { IsRunning (made stores.old) control.old.expr }
    requires live { IsTrue (is_live stores.old.windows page) }
    ensures reduces { Reduces (red.reduction stores.old page control.old) result control.new
        stores.new outs.old.items outs.new.items }
    ensures copies { RisesBy (working stores.old control.old) copies.old copies.new }
{
    match control.done() {
        Some(v) => Ok(Reduced::Done(v.copy()?)),
        None => answer(reduce_redex(alloc, control, stores, page, outs, copies)),
    }
}

/// What a reduction answers of an expression that is no value.
fn answer(got: Result<(), Fail>) -> Result<Reduced, NoMemory>
    ensures { result ≡ answered got }
{
    match got {
        Ok(()) => Ok(Reduced::Moved),
        Err(Fail::Fault(fault)) => Ok(Reduced::Failed(fault)),
        Err(Fail::NoMemory) => Err(AllocError),
    }
}

/// Makes one reduction of an expression that is no value. With a fault nothing has changed.
pub(crate) fn reduce_redex<C: Ledger>(
    alloc: Global,
    control: &mut Control,
    stores: &mut Stores,
    page: PageId,
    outs: &mut Vec<Out>,
    copies: &mut Steps<C>,
) -> Result<(), Fail>
    requires unfinished { is_value control.old.expr ≡ false }
    requires act { control.old.base.0 < length stores.old.windows.acts }
    requires running { IsRunning (made stores.old) control.old.expr }
    requires live { IsTrue (is_live stores.old.windows page) }
    ensures reduces { Reduces (red.reduction stores.old page control.old) (answered result)
        control.new stores.new outs.old.items outs.new.items }
    ensures copies { RisesBy (working stores.old control.old) copies.old copies.new }
{
    let a = act_of(control, stores);
    match redex_of(control, stores) {
        Redex::Local => Ok(control.local(alloc)?),
        Redex::Test(v) => {
            let yes = truth(v)?;
            Ok(control.choose(alloc, yes)?)
        }
        Redex::Var(x) => match stores.lookup(a, x) {
            Some(v) => Ok(control.give_copy(alloc, v)?),
            None => Err(Fail::Fault(Fault::Name)),
        },
        Redex::Let(x, v) => {
            stores.declare(a, x, v, copies)?;
            Ok(control.keep(alloc)?)
        }
        Redex::Set(x, v) => {
            stores.assign(a, x, v, copies)?;
            Ok(control.keep(alloc)?)
        }
        Redex::Prim(op, args) => {
            let got = operate(alloc, stores, page, op, args, outs, copies);
            finish(alloc, control, got)
        }
        Redex::Apply(f, args) => {
            let got = call(control.depth(), stores, f, args, copies);
            enter(alloc, control, got)
        }
        Redex::Make(params, body) => {
            let got = make(a, params, body);
            finish(alloc, control, got)
        }
        Redex::Tree(doc) => {
            let got = make_tree(stores, a, doc, copies);
            finish(alloc, control, got)
        }
    }
}

/// The activation in which the redex stands.
fn act_of(control: &Control, stores: &Stores) -> ActId
    requires act { control.now.base.0 < length stores.now.windows.acts }
    requires running { IsRunning (made stores.now) control.now.expr }
    ensures value { result ≡ term.innermost control.now.base control.now.expr }
    ensures lives { result.0 < length stores.now.windows.acts }
{
    control.act()
}

/// The redex, lent.
fn redex_of<'a>(control: &'a Control, stores: &Stores) -> Redex<'a>
    requires unfinished { is_value control.now.expr ≡ false }
    requires running { IsRunning (made stores.now) control.now.expr }
    ensures is { IsRedexOf (named result) (term.redex control.now.expr) }
    ensures valid { IsRedex (made stores.now) (named result) }
    ensures read { read_redex (term.redex control.now.expr) ≡ named result }
{
    control.next()
}

/// Whether the test of an `if` holds. Its fault is `Kind`, where it is no truth value.
fn truth(v: &Val) -> Result<bool, Fail>
    ensures { Gives (tested v.now) result }
{
    match v {
        Val::Bool(yes) => Ok(*yes),
        _ => Err(Fail::Fault(Fault::Kind)),
    }
}

/// Puts the value that a row gave for the redex, or hands on why it gave none.
fn finish(alloc: Global, control: &mut Control, got: Result<Val, Fail>) -> Result<(), Fail>
    requires { is_value control.old.expr ≡ false }
    ensures { Finishes control.old got (answered result) control.new }
{
    match got {
        Ok(v) => Ok(control.give(alloc, v)?),
        Err(fail) => Err(fail),
    }
}
