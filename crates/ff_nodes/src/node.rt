//! One node of a tree.
ghost use Rattle.std.specs.Prelude.{◌≡◌, ◌++◌, ◌∷◌, [], IfOk};
ghost use Rattle.std.specs.Str.{bytes_eq};
ghost use Rattle.std.specs.Option.{option_copied};
ghost use Rattle.ff_machine.specs.Kinds.{kind_word};
ghost use Rattle.ff_machine.specs.Nodes.{is_name};
ghost use Rattle.ff_machine.specs.Shapes as shapes;

use ff_machine::{Kind, Shape};
use ff_value::{Body, Code, Codes, Ids, NoMemory, NodeId, PageId, Text, Url};
use std::alloc::Global;
use std::marker::Model;

/// A node: what it is, its handlers in order, its children in order, and the node that it is a
/// child of.
#[derive(Drop)]
pub(crate) struct Node {
    pub(crate) shape: Shape,
    pub(crate) handlers: Codes,
    pub(crate) children: Ids,
    pub(crate) parent: Option<NodeId>,
}

impl Model for Node {
    ghost use Rattle.ff_machine.specs.Nodes as nodes;
    ghost use Rattle.ff_machine.specs.Codes.{coded_node};

    ghost Value = { nodes.Node };

    ghost coded = { coded_node };

    ghost view = { λ n. record {
      shape = n.shape;
      handlers = n.handlers;
      children = n.children;
      parent = n.parent;
    } };
}

impl Node {
    pub(crate) fn of(shape: Shape, handlers: Codes, children: Ids, parent: Option<NodeId>) -> Node
        ensures { result ≡ record {
          shape = shape;
          handlers = handlers;
          children = children;
          parent = parent;
        } }
    {
        Node {
            shape,
            handlers,
            children,
            parent,
        }
    }

    /// An equal node, which shares its texts, its scripts and its lists. It is refused only for
    /// want of memory.
    pub(crate) fn copy(&self) -> Result<Node, NoMemory>
        ensures { IfOk result (λ node. node ≡ self.now) }
    {
        Ok(Node {
            shape: self.shape.copy()?,
            handlers: self.handlers.copy()?,
            children: self.children.copy()?,
            parent: self.parent,
        })
    }

    pub(crate) fn shape(&self) -> &Shape
        ensures { result.now ≡ self.now.shape }
    {
        &self.shape
    }

    pub(crate) fn handlers(&self) -> &Codes
        ensures { result.now ≡ self.now.handlers }
    {
        &self.handlers
    }

    pub(crate) fn children(&self) -> &Ids
        ensures { result.now ≡ self.now.children }
    {
        &self.children
    }

    pub(crate) fn parent(&self) -> Option<NodeId>
        ensures { result ≡ self.now.parent }
    {
        self.parent
    }

    pub(crate) fn kind(&self) -> Kind
        ensures { result ≡ shapes.kind_of self.now.shape }
    {
        match &self.shape {
            Shape::Page(_) => Kind::Page,
            Shape::Text(_, _) => Kind::Text,
            Shape::Link(_, _, _) => Kind::Link,
            Shape::TextBox(_, _) => Kind::TextBox,
            Shape::Button(_, _) => Kind::Button,
            Shape::Script(_, _, _) => Kind::Script,
            Shape::Src(_, _, _) => Kind::Src,
            Shape::Div(_) => Kind::Div,
        }
    }

    pub(crate) fn name(&self) -> Option<&[u8]>
        ensures { option_copied result ≡ shapes.name_of self.now.shape }
    {
        match &self.shape {
            Shape::Page(_) => None,
            Shape::Text(name, _) => Some(name.as_bytes()),
            Shape::Link(name, _, _) => Some(name.as_bytes()),
            Shape::TextBox(name, _) => Some(name.as_bytes()),
            Shape::Button(name, _) => Some(name.as_bytes()),
            Shape::Script(name, _, _) => Some(name.as_bytes()),
            Shape::Src(name, _, _) => Some(name.as_bytes()),
            Shape::Div(name) => Some(name.as_bytes()),
        }
    }

    pub(crate) fn text(&self) -> Option<&Text>
        ensures { option_copied result ≡ shapes.text_of self.now.shape }
    {
        match &self.shape {
            Shape::Text(_, text) => Some(text),
            Shape::Link(_, _, label) => Some(label),
            Shape::TextBox(_, text) => Some(text),
            Shape::Button(_, label) => Some(label),
            Shape::Page(_) => None,
            Shape::Script(_, _, _) => None,
            Shape::Src(_, _, _) => None,
            Shape::Div(_) => None,
        }
    }

    pub(crate) fn url(&self) -> Option<&Url>
        ensures { option_copied result ≡ shapes.url_of self.now.shape }
    {
        match &self.shape {
            Shape::Link(_, url, _) => Some(url),
            Shape::Src(_, _, url) => Some(url),
            Shape::Page(_) => None,
            Shape::Text(_, _) => None,
            Shape::TextBox(_, _) => None,
            Shape::Button(_, _) => None,
            Shape::Script(_, _, _) => None,
            Shape::Div(_) => None,
        }
    }

    pub(crate) fn body(&self) -> Option<&Body>
        ensures { option_copied result ≡ shapes.body_of self.now.shape }
    {
        match &self.shape {
            Shape::Script(_, _, body) => Some(body),
            Shape::Page(_) => None,
            Shape::Text(_, _) => None,
            Shape::Link(_, _, _) => None,
            Shape::TextBox(_, _) => None,
            Shape::Button(_, _) => None,
            Shape::Src(_, _, _) => None,
            Shape::Div(_) => None,
        }
    }

    pub(crate) fn page(&self) -> Option<PageId>
        ensures { result ≡ shapes.page_of self.now.shape }
    {
        match &self.shape {
            Shape::Page(page) => Some(*page),
            Shape::Text(_, _) => None,
            Shape::Link(_, _, _) => None,
            Shape::TextBox(_, _) => None,
            Shape::Button(_, _) => None,
            Shape::Script(_, _, _) => None,
            Shape::Src(_, _, _) => None,
            Shape::Div(_) => None,
        }
    }

    /// Whether it is a script, or the address of one, that wasn't started.
    pub(crate) fn is_unstarted(&self) -> bool
        ensures { result ≡ shapes.is_unstarted self.now.shape }
    {
        match &self.shape {
            Shape::Script(_, started, _) => !*started,
            Shape::Src(_, started, _) => !*started,
            Shape::Page(_) => false,
            Shape::Text(_, _) => false,
            Shape::Link(_, _, _) => false,
            Shape::TextBox(_, _) => false,
            Shape::Button(_, _) => false,
            Shape::Div(_) => false,
        }
    }

    /// Whether its kind has children.
    pub(crate) fn may_have_children(&self) -> bool
        ensures { result ≡ shapes.may_have_children self.now.shape }
    {
        match &self.shape {
            Shape::Page(_) => true,
            Shape::Div(_) => true,
            Shape::Text(_, _) => false,
            Shape::Link(_, _, _) => false,
            Shape::TextBox(_, _) => false,
            Shape::Button(_, _) => false,
            Shape::Script(_, _, _) => false,
            Shape::Src(_, _, _) => false,
        }
    }

    /// Whether its kind has handlers.
    pub(crate) fn may_have_handlers(&self) -> bool
        ensures { result ≡ shapes.may_have_handlers self.now.shape }
    {
        match &self.shape {
            Shape::TextBox(_, _) => true,
            Shape::Button(_, _) => true,
            Shape::Page(_) => false,
            Shape::Text(_, _) => false,
            Shape::Link(_, _, _) => false,
            Shape::Script(_, _, _) => false,
            Shape::Src(_, _, _) => false,
            Shape::Div(_) => false,
        }
    }

    pub(crate) fn is_named(&self, name: &[u8]) -> bool
        ensures { result ≡ is_name name.now (shapes.name_of self.now.shape) }
    {
        match self.name() {
            Some(own) => own == name,
            None => false,
        }
    }

    pub(crate) fn is_of_kind(&self, kind: Kind) -> bool
        ensures { result ≡ bytes_eq (kind_word (shapes.kind_of self.now.shape)) (kind_word kind) }
    {
        self.kind() == kind
    }

    /// The node's handlers, and behind them one more.
    pub(crate) fn handlers_with(&self, alloc: Global, code: &Code) -> Result<Codes, NoMemory>
        ensures { IfOk result (λ handlers. handlers ≡ self.now.handlers ++ code.now ∷ []) }
    {
        let mut handlers = Vec::new(alloc);
        for handler in self.handlers.as_slice() {
            handlers.push(handler.copy()?)?;
        }
        handlers.push(code.copy()?)?;
        Codes::from_vec(alloc, handlers)
    }
}
