//! Readers of operands: one for each list of kinds that an operator over the stores takes. Texts
//! and functions are lent. What the operands refer to was made where the operands' values were.
ghost use Rattle.std.specs.Prelude.{◌≡◌, ◌<◌, All, IfSome};
ghost use Rattle.ff_operators.specs.Operands as operands;
ghost use Rattle.ff_machine.specs.References.{Made};
ghost use Rattle.ff_machine.specs.Valid.{IsCode, IsVal};
ghost use Rattle.ff_store_operators.specs.Lent.{win_text_lent, node_text_lent, node_text_num_lent, node_code_lent, texts_code_lent};

use ff_value::{Code, NodeId, Text, Val, WinId};

/// No operand.
pub(crate) fn no_operands(args: &[Val]) -> Option<()>
    ensures { result ≡ operands.no_operands args.now }
{
    match args {
        [] => Some(()),
        _ => None,
    }
}

/// The one operand, where it is a window.
pub(crate) fn one_win(args: &[Val]) -> Option<WinId>
    ensures value { result ≡ operands.one_win args.now }
    ensures within { (m : Made) → All (IsVal m) args.now → IfSome result (λ w. w.0 < m.wins) }
{
    match args {
        [Val::Win(a)] => Some(*a),
        _ => None,
    }
}

/// A window and a text.
pub(crate) fn win_str(args: &[Val]) -> Option<(WinId, &Text)>
    ensures value { win_text_lent result ≡ operands.win_str args.now }
    ensures within { (m : Made) → All (IsVal m) args.now → IfSome result (λ o. o.0.0 < m.wins) }
{
    match args {
        [Val::Win(a), Val::Str(b)] => Some((*a, b)),
        _ => None,
    }
}

/// The one operand, where it is a node.
pub(crate) fn one_node(args: &[Val]) -> Option<NodeId>
    ensures value { result ≡ operands.one_node args.now }
    ensures within { (m : Made) → All (IsVal m) args.now → IfSome result (λ n. n.0 < m.nodes) }
{
    match args {
        [Val::Node(a)] => Some(*a),
        _ => None,
    }
}

/// A node and a text.
pub(crate) fn node_str(args: &[Val]) -> Option<(NodeId, &Text)>
    ensures value { node_text_lent result ≡ operands.node_str args.now }
    ensures within { (m : Made) → All (IsVal m) args.now → IfSome result (λ o. o.0.0 < m.nodes) }
{
    match args {
        [Val::Node(a), Val::Str(b)] => Some((*a, b)),
        _ => None,
    }
}

/// A node and a number.
pub(crate) fn node_num(args: &[Val]) -> Option<(NodeId, i64)>
    ensures value { result ≡ operands.node_num args.now }
    ensures within { (m : Made) → All (IsVal m) args.now → IfSome result (λ o. o.0.0 < m.nodes) }
{
    match args {
        [Val::Node(a), Val::Num(b)] => Some((*a, *b)),
        _ => None,
    }
}

/// A node, a text and a number.
pub(crate) fn node_str_num(args: &[Val]) -> Option<(NodeId, &Text, i64)>
    ensures value { node_text_num_lent result ≡ operands.node_str_num args.now }
    ensures within { (m : Made) → All (IsVal m) args.now → IfSome result (λ o. o.0.0 < m.nodes) }
{
    match args {
        [Val::Node(a), Val::Str(b), Val::Num(c)] => Some((*a, b, *c)),
        _ => None,
    }
}

/// Two nodes and a number.
pub(crate) fn nodes_num(args: &[Val]) -> Option<(NodeId, NodeId, i64)>
    ensures value { result ≡ operands.nodes_num args.now }
    ensures first { (m : Made) → All (IsVal m) args.now → IfSome result (λ o. o.0.0 < m.nodes) }
    ensures second { (m : Made) → All (IsVal m) args.now → IfSome result (λ o. o.1.0 < m.nodes) }
{
    match args {
        [Val::Node(a), Val::Node(b), Val::Num(c)] => Some((*a, *b, *c)),
        _ => None,
    }
}

/// A node and a function.
pub(crate) fn node_code(args: &[Val]) -> Option<(NodeId, &Code)>
    ensures value { node_code_lent result ≡ operands.node_code args.now }
    ensures within { (m : Made) → All (IsVal m) args.now → IfSome result (λ o. o.0.0 < m.nodes) }
    ensures code { (m : Made) → All (IsVal m) args.now → IfSome result (λ o. IsCode m o.1.now) }
{
    match args {
        [Val::Node(a), Val::Code(b)] => Some((*a, b)),
        _ => None,
    }
}

/// Two texts and a function.
pub(crate) fn strs_code(args: &[Val]) -> Option<(&Text, &Text, &Code)>
    ensures value { texts_code_lent result ≡ operands.strs_code args.now }
    ensures code { (m : Made) → All (IsVal m) args.now → IfSome result (λ o. IsCode m o.2.now) }
{
    match args {
        [Val::Str(a), Val::Str(b), Val::Code(c)] => Some((a, b, c)),
        _ => None,
    }
}
