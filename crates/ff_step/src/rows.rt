//! The rows of redexes that become a value.
ghost use Rattle.std.specs.Prelude.{◌≡◌, ◌*◌, ◌<◌, List, length};
ghost use Rattle.ff_contract.specs.Rises.{RisesBy};
ghost use Rattle.ff_tree.specs.Spelled.{IsVar, IsWellSpelledDoc};
ghost use Rattle.ff_value.specs.declared.output.Out.{Out};
ghost use Rattle.ff_machine.specs.Answers.{Does, Reads};
ghost use Rattle.ff_machine.specs.Documents.{laid};
ghost use Rattle.ff_machine.specs.Reduction as red;
ghost use Rattle.ff_machine.specs.References.{made};
ghost use Rattle.ff_machine.specs.Stores.{Stores};
ghost use Rattle.ff_machine.specs.Valid.{IsVal};
ghost use Rattle.ff_machine.specs.Windows as windows;

use ff_contract::Steps;
use ff_name::Name;
use ff_operators::Fail;
use ff_store_operators::Stores;
use ff_value::{ActId, Body, Code, Doc, Fault, Names, Val};
use std::sync::ledger::Ledger;

/// The function of the parameters and the body, made in the activation.
#[inline(never)]
pub(crate) fn make(a: ActId, params: &Names, body: &Body) -> Result<Val, Fail>
    ensures { (s : Stores) → Reads (red.make s a params.now body.now) result }
{
    Ok(Val::Code(Code {
        params: params.copy()?,
        body: body.copy()?,
        env: a,
    }))
}

/// Makes a tree without a parent; gives its root. Its fault is `Limit`.
#[inline(never)]
pub(crate) fn make_tree<C: Ledger>(
    stores: &mut Stores,
    a: ActId,
    doc: &Doc,
    copies: &mut Steps<C>,
) -> Result<Val, Fail>
    requires lives { a.0 < length stores.old.windows.acts }
    requires spelled { IsWellSpelledDoc doc.now }
    ensures does { (puts : List Out) → Does (red.make_tree stores.old a doc.now) result stores.old
        stores.new puts puts }
    ensures copies { RisesBy (47 * (laid a doc.now).size) copies.old copies.new }
{
    let n = stores.make_tree(a, doc, copies)?;
    Ok(Val::Node(n))
}
