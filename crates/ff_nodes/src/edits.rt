//! Changes of a node, each made where its cell lies.
ghost use Rattle.std.specs.Prelude.{◌≡◌, ◌++◌, ◌∷◌, [], IfOk};
ghost use Rattle.std.specs.Str.{IsUtf8};
ghost use Rattle.ff_machine.specs.Shapes as shapes;

use crate::cell::NodeCell;
use crate::node::Node;
use ff_cow::Edit;
use ff_machine::Shape;
use ff_value::{Codes, NoMemory, Text};

/// A change of a cell's node, whose marks stay.
#[derive(Drop)]
pub(crate) struct OfNode<E> {
    pub(crate) edit: E,
}

impl<E: Edit<Node>> Edit<NodeCell> for OfNode<E> {
    ghost edited = { λ change cell. record cell { node = E.edited change.edit cell.node } };

    fn edit(self, cell: &mut NodeCell) {
        let OfNode { edit } = self;
        edit.edit(&mut cell.node);
    }
}

/// Another text or label, where the node's kind has one.
#[derive(Drop)]
pub(crate) struct NewText {
    text: Text,
}

impl NewText {
    /// The change into a text, which it shares.
    pub(crate) fn of(text: &Text) -> Result<NewText, NoMemory>
        ensures value { IfOk result (λ change. change ≡ record { text = text.now }) }
        ensures utf8 { IsUtf8 text.now }
    {
        let _known = text.as_bytes();
        Ok(NewText { text: text.copy()? })
    }
}

impl Edit<Node> for NewText {
    ghost edited = { λ change node. record node
        { shape = shapes.with_text node.shape change.text } };

    fn edit(self, node: &mut Node) {
        let NewText { text } = self;
        put_text(&mut node.shape, text);
    }
}

/// Puts another text or label where the kind has one.
fn put_text(shape: &mut Shape, text: Text)
    ensures { shape.new ≡ shapes.with_text shape.old text }
{
    match shape {
        Shape::Text(_, old) => *old = text,
        Shape::Link(_, _, old) => *old = text,
        Shape::TextBox(_, old) => *old = text,
        Shape::Button(_, old) => *old = text,
        Shape::Page(_) => {}
        Shape::Script(_, _, _) => {}
        Shape::Src(_, _, _) => {}
        Shape::Div(_) => {}
    }
}

/// Other handlers.
#[derive(Drop)]
pub(crate) struct NewHandlers {
    pub(crate) handlers: Codes,
}

impl Edit<Node> for NewHandlers {
    ghost edited = { λ change node. record node { handlers = change.handlers } };

    fn edit(self, node: &mut Node) {
        node.handlers = self.handlers;
    }
}

/// The node counts as started, where its kind can.
#[derive(Drop)]
pub(crate) struct Started;

impl Edit<Node> for Started {
    ghost edited = { λ _ node. record node { shape = shapes.as_started node.shape } };

    fn edit(self, node: &mut Node) {
        mark_started(&mut node.shape);
    }
}

/// A script counts as started.
fn mark_started(shape: &mut Shape)
    ensures { shape.new ≡ shapes.as_started shape.old }
{
    match shape {
        Shape::Script(_, started, _) => *started = true,
        Shape::Src(_, started, _) => *started = true,
        Shape::Page(_) => {}
        Shape::Text(_, _) => {}
        Shape::Link(_, _, _) => {}
        Shape::TextBox(_, _) => {}
        Shape::Button(_, _) => {}
        Shape::Div(_) => {}
    }
}
