//! The operators that change nodes.
ghost use Rattle.std.specs.Prelude.{◌≡◌, ◌<◌, List, length, All};
ghost use Rattle.ff_contract.specs.Rises.{RisesBy};
ghost use Rattle.ff_tree.specs.declared.op.Op.TheVariants as op;
ghost use Rattle.ff_value.specs.declared.output.Out.{Out};
ghost use Rattle.ff_machine.specs.Answers.{Does};
ghost use Rattle.ff_machine.specs.Operators as operators;
ghost use Rattle.ff_machine.specs.References.{made};
ghost use Rattle.ff_machine.specs.Valid.{IsCode, IsVal};
ghost use Rattle.ff_store_operators.specs.Copies.{inserting, most_copies};

use crate::operands::{node_code, node_str, nodes_num};
use ff_contract::Steps;
use ff_name::Text;
use ff_operators::Fail;
use ff_stores::Stores;
use ff_value::{Code, Fault, NodeId, Out, PageId, Val};
use std::sync::ledger::Ledger;

/// `set-text`: a node whose kind has a text gets another.
pub(crate) fn set_text<C: Ledger>(
    stores: &mut Stores,
    page: PageId,
    args: &[Val],
    copies: &mut Steps<C>,
) -> Result<Val, Fail>
    requires { All (IsVal (made stores.old)) args.now }
    ensures does { (puts : List Out) → Does (operators.operate stores.old page op.SetText args.now)
        result stores.old stores.new puts puts }
    ensures copies { RisesBy 64 copies.old copies.new }
{
    match node_str(args) {
        Some((n, text)) => set_text_of(stores, n, text, copies),
        None => Err(Fail::Fault(Fault::Kind)),
    }
}

fn set_text_of<C: Ledger>(
    stores: &mut Stores,
    n: NodeId,
    text: &Text,
    copies: &mut Steps<C>,
) -> Result<Val, Fail>
    requires { n.0 < length stores.old.nodes }
    ensures does { (puts : List Out) → Does (operators.set_text stores.old n text.now) result
        stores.old stores.new puts puts }
    ensures copies { RisesBy 64 copies.old copies.new }
{
    stores.set_text(n, text, copies)?;
    Ok(Val::Null)
}

/// `listen`: a node gets a handler more.
pub(crate) fn listen<C: Ledger>(
    stores: &mut Stores,
    page: PageId,
    args: &[Val],
    copies: &mut Steps<C>,
) -> Result<Val, Fail>
    requires { All (IsVal (made stores.old)) args.now }
    ensures does { (puts : List Out) → Does (operators.operate stores.old page op.Listen args.now)
        result stores.old stores.new puts puts }
    ensures copies { RisesBy 16 copies.old copies.new }
{
    match node_code(args) {
        Some((n, code)) => listen_at(stores, n, code, copies),
        None => Err(Fail::Fault(Fault::Kind)),
    }
}

fn listen_at<C: Ledger>(
    stores: &mut Stores,
    n: NodeId,
    code: &Code,
    copies: &mut Steps<C>,
) -> Result<Val, Fail>
    requires lives { n.0 < length stores.old.nodes }
    requires code { IsCode (made stores.old) code.now }
    ensures does { (puts : List Out) → Does (operators.listen stores.old n code.now) result
        stores.old stores.new puts puts }
    ensures copies { RisesBy 16 copies.old copies.new }
{
    stores.add_handler(n, code, copies)?;
    Ok(Val::Null)
}

/// `insert`: a node stands under another at a place, and its scripts start.
pub(crate) fn insert<C: Ledger>(
    stores: &mut Stores,
    page: PageId,
    args: &[Val],
    outs: &mut Vec<Out>,
    copies: &mut Steps<C>,
) -> Result<Val, Fail>
    requires { All (IsVal (made stores.old)) args.now }
    ensures does { Does (operators.operate stores.old page op.Insert args.now) result stores.old
        stores.new outs.old.items outs.new.items }
    ensures copies { RisesBy (most_copies stores.old op.Insert args.now) copies.old copies.new }
{
    match nodes_num(args) {
        Some((parent, child, at)) => insert_at(stores, parent, child, at, outs, copies),
        None => Err(Fail::Fault(Fault::Kind)),
    }
}

fn insert_at<C: Ledger>(
    stores: &mut Stores,
    parent: NodeId,
    child: NodeId,
    at: i64,
    outs: &mut Vec<Out>,
    copies: &mut Steps<C>,
) -> Result<Val, Fail>
    requires parent { parent.0 < length stores.old.nodes }
    requires child { child.0 < length stores.old.nodes }
    ensures does { Does (operators.insert stores.old parent child at) result stores.old stores.new
        outs.old.items outs.new.items }
    ensures copies { RisesBy (inserting stores.old parent child at) copies.old copies.new }
{
    stores.insert(parent, child, at, outs, copies)?;
    Ok(Val::Null)
}
