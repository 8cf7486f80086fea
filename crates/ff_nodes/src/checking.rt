//! Which records of nodes have the form of their kind, and are well spelled.
ghost use Rattle.std.specs.Prelude.{◌≡◌, ◌↔◌, All, IfOk, IsTrue, None};
ghost use Rattle.ff_machine.specs.Alone.{HasForm, IsHandler, IsNode, IsShape};
ghost use Rattle.ff_machine.specs.Shapes as shapes;
ghost use Rattle.ff_nodes.specs.Recorded.{node_of};

use ff_machine::Shape;
use ff_records::NodeRec;
use ff_spelling::{is_expr, is_handler, is_url};
use ff_value::{Code, MOST_HANDLERS, NoMemory};
use std::alloc::Global;

/// Whether each node is well spelled and has the form of its kind, its parent aside.
pub(crate) fn are_nodes(alloc: Global, recs: &[NodeRec]) -> Result<bool, NoMemory>
    ensures { IfOk result (λ are. IsTrue are ↔ All (λ rec. IsNode (node_of rec None)) recs.now) }
{
    for rec in recs {
        let valid = is_node(alloc, rec)?;
        if !valid {
            return Ok(false);
        }
    }
    Ok(true)
}

fn is_node(alloc: Global, rec: &NodeRec) -> Result<bool, NoMemory>
    ensures { IfOk result (λ is. IsTrue is ↔ IsNode (node_of rec.now None)) }
{
    let handlers = rec.on.as_slice();
    let spelled = is_shape(alloc, &rec.shape)?;
    let heard = are_handlers(alloc, handlers)?;
    Ok(spelled && heard && has_form(rec))
}

/// Whether a node has handlers and children as its kind may.
fn has_form(rec: &NodeRec) -> bool
    ensures { IsTrue result ↔ HasForm (node_of rec.now None) }
{
    (rec.on.is_empty() || may_have_handlers(&rec.shape))
        && (rec.kids.is_empty() || may_have_children(&rec.shape))
        && rec.on.len() <= MOST_HANDLERS
}

fn are_handlers(alloc: Global, codes: &[Code]) -> Result<bool, NoMemory>
    ensures { IfOk result (λ are. IsTrue are ↔ All IsHandler codes.now) }
{
    for code in codes {
        let valid = is_handler(alloc, code)?;
        if !valid {
            return Ok(false);
        }
    }
    Ok(true)
}

/// Whether what belongs to the kind is well spelled. Names and texts are by their types.
fn is_shape(alloc: Global, shape: &Shape) -> Result<bool, NoMemory>
    ensures { IfOk result (λ is. IsTrue is ↔ IsShape shape.now) }
{
    match shape {
        Shape::Page(_) => Ok(true),
        Shape::Text(name, text) => {
            let _known = name.as_bytes();
            let _known = text.as_bytes();
            Ok(true)
        }
        Shape::Link(name, url, label) => {
            let _known = name.as_bytes();
            let _known = label.as_bytes();
            Ok(is_url(url))
        }
        Shape::TextBox(name, text) => {
            let _known = name.as_bytes();
            let _known = text.as_bytes();
            Ok(true)
        }
        Shape::Button(name, label) => {
            let _known = name.as_bytes();
            let _known = label.as_bytes();
            Ok(true)
        }
        Shape::Script(name, _, body) => {
            let _known = name.as_bytes();
            is_expr(alloc, body.get())
        }
        Shape::Src(name, _, url) => {
            let _known = name.as_bytes();
            Ok(is_url(url))
        }
        Shape::Div(name) => {
            let _known = name.as_bytes();
            Ok(true)
        }
    }
}

fn may_have_children(shape: &Shape) -> bool
    ensures { result ≡ shapes.may_have_children shape.now }
{
    matches!(shape, Shape::Page(_) | Shape::Div(_))
}

fn may_have_handlers(shape: &Shape) -> bool
    ensures { result ≡ shapes.may_have_handlers shape.now }
{
    matches!(shape, Shape::TextBox(_, _) | Shape::Button(_, _))
}
