//! The operators that read nodes.
ghost use Rattle.std.specs.Prelude.{◌≡◌, ◌<◌, length, All};
ghost use Rattle.ff_tree.specs.declared.op.Op.TheVariants as op;
ghost use Rattle.ff_machine.specs.Answers.{Reads};
ghost use Rattle.ff_machine.specs.Operators as operators;
ghost use Rattle.ff_machine.specs.Nodes as trees;
ghost use Rattle.ff_machine.specs.Shapes.{text_of};
ghost use Rattle.ff_machine.specs.References.{made};
ghost use Rattle.ff_machine.specs.Valid.{IsVal};

use crate::operands::{node_num, node_str, node_str_num, one_node};
use crate::words::kind_named;
use ff_name::{Text, Worded};
use ff_operators::Fail;
use ff_stores::Stores;
use ff_value::{Fault, NodeId, PageId, Val};
use std::alloc::Global;

/// `kind`: the word of a node's kind.
pub(crate) fn kind(alloc: Global, stores: &Stores, page: PageId, args: &[Val]) -> Result<Val, Fail>
    requires { All (IsVal (made stores.now)) args.now }
    ensures { Reads (operators.operate stores.now page op.Kind args.now) result }
{
    match one_node(args) {
        Some(n) => {
            let word = Text::of_str(alloc, stores.nodes().kind(n).word())?;
            Ok(Val::Str(word))
        }
        None => Err(Fail::Fault(Fault::Kind)),
    }
}

/// `text`: the text or label of a node whose kind has one.
pub(crate) fn text(stores: &Stores, page: PageId, args: &[Val]) -> Result<Val, Fail>
    requires { All (IsVal (made stores.now)) args.now }
    ensures { Reads (operators.operate stores.now page op.Text args.now) result }
{
    match one_node(args) {
        Some(n) => text_of(stores, n),
        None => Err(Fail::Fault(Fault::Kind)),
    }
}

fn text_of(stores: &Stores, n: NodeId) -> Result<Val, Fail>
    requires { n.0 < length stores.now.nodes }
    ensures { Reads (operators.text stores.now (text_of (trees.node_at stores.now.nodes n).shape))
        result }
{
    match stores.nodes().text(n) {
        Some(text) => Ok(Val::Str(text.copy()?)),
        None => Err(Fail::Fault(Fault::Kind)),
    }
}

/// `count`: how many children a node has.
pub(crate) fn count(stores: &Stores, page: PageId, args: &[Val]) -> Result<Val, Fail>
    requires { All (IsVal (made stores.now)) args.now }
    ensures { Reads (operators.operate stores.now page op.Count args.now) result }
{
    match one_node(args) {
        Some(n) => Ok(Val::Num(i64::from(stores.nodes().count(n)))),
        None => Err(Fail::Fault(Fault::Kind)),
    }
}

/// `child`: the child of a node at a place.
pub(crate) fn child(stores: &Stores, page: PageId, args: &[Val]) -> Result<Val, Fail>
    requires { All (IsVal (made stores.now)) args.now }
    ensures { Reads (operators.operate stores.now page op.Child args.now) result }
{
    match node_num(args) {
        Some((n, at)) => match stores.nodes().child(n, at) {
            Some(child) => Ok(Val::Node(child)),
            None => Err(Fail::Fault(Fault::Range)),
        },
        None => Err(Fail::Fault(Fault::Kind)),
    }
}

/// `find`: the first node of a name in the tree of a node, or `null`.
pub(crate) fn find(stores: &Stores, page: PageId, args: &[Val]) -> Result<Val, Fail>
    requires { All (IsVal (made stores.now)) args.now }
    ensures { Reads (operators.operate stores.now page op.Find args.now) result }
{
    match node_str(args) {
        Some((n, name)) => {
            let found = stores.nodes().by_name(n, name.as_bytes());
            Ok(found.map_or(Val::Null, Val::Node))
        }
        None => Err(Fail::Fault(Fault::Kind)),
    }
}

/// `nth`: the node of a kind and a number in the tree of a node, or `null`.
pub(crate) fn nth(stores: &Stores, page: PageId, args: &[Val]) -> Result<Val, Fail>
    requires { All (IsVal (made stores.now)) args.now }
    ensures { Reads (operators.operate stores.now page op.Nth args.now) result }
{
    match node_str_num(args) {
        Some((n, word, at)) => {
            let found = nth_of_word(stores, n, word, at);
            Ok(found.map_or(Val::Null, Val::Node))
        }
        None => Err(Fail::Fault(Fault::Kind)),
    }
}

/// No node is of a kind whose word isn't one, and no tree has as many nodes as 32 bits count.
fn nth_of_word(stores: &Stores, n: NodeId, word: &Text, at: i64) -> Option<NodeId>
    requires { n.0 < length stores.now.nodes }
    ensures { result ≡ operators.item_at (trees.of_word stores.now.nodes n word.now) at }
{
    let nodes = stores.nodes();
    match kind_named(word.as_str()) {
        Some(kind) => match u32::try_from(at) {
            Ok(at) => nodes.nth(n, kind, at),
            Err(_past) => None,
        },
        None => None,
    }
}
