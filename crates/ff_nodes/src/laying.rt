//! Documents, laid as new nodes behind the ones that there are. Room for all of a document is
//! counted before anything is laid; a division is written twice, at first without its children.
ghost use Rattle.std.specs.Prelude.{◌≡◌, ◌*◌, [], None, Some, length, map, IfOk, OnOk};
ghost use Rattle.ff_contract.specs.Rises.{RisesBy};
ghost use Rattle.ff_machine.specs.Documents as documents;
ghost use Rattle.ff_machine.specs.Documents.{laid, laid_page, size_of, numbers, lay_all, handler_code};
ghost use Rattle.ff_tree.specs.declared.tree.Doc.TheViews.{out-Doc};
ghost use Rattle.ff_nodes.specs.Laying.{AreNew, top_shape, top_handlers};
ghost use Rattle.ff_nodes.specs.Marked.{IsOwn};

use crate::cell::NodeCell;
use crate::marks::Marks;
use crate::node::Node;
use ff_contract::Steps;
use ff_cow::CowVec;
use ff_machine::Shape;
use ff_value::{ActId, Code, Codes, Doc, Handler, Ids, Names, NoMemory, NodeId, PageId};
use std::alloc::{AllocError, Global};
use std::sync::ledger::Ledger;

/// Lays a document behind the nodes, its topmost node under the given one.
#[cycle(laying)]
pub(crate) fn lay_doc<C: Ledger>(
    doc: &Doc,
    under: Option<NodeId>,
    env: ActId,
    alloc: Global,
    cells: &mut CowVec<NodeCell>,
    copies: &mut Steps<C>,
) -> Result<(), NoMemory>
    ensures new { OnOk result (AreNew cells.old cells.new
        ((laid env doc.now).nodes (length cells.old) under)) }
    ensures copies { RisesBy (31 * (laid env doc.now).size) copies.old copies.new }
{
    let shape = shape_of(doc)?;
    match doc {
        Doc::Div(_, docs) => lay_over(docs.as_slice(), &shape, under, env, alloc, cells, copies),
        _ => {
            let handlers = handlers_of(doc, env, alloc)?;
            lay_leaf(shape, handlers, under, alloc, cells, copies)
        }
    }
}

/// Lays a page and, under it, documents, behind the nodes.
pub(crate) fn lay_page<C: Ledger>(
    docs: &[Doc],
    page: PageId,
    env: ActId,
    alloc: Global,
    cells: &mut CowVec<NodeCell>,
    copies: &mut Steps<C>,
) -> Result<(), NoMemory>
    ensures new { OnOk result (AreNew cells.old cells.new
        ((laid_page page env docs.now).nodes (length cells.old) None)) }
    ensures copies { RisesBy (31 * (laid_page page env docs.now).size) copies.old copies.new }
{
    let shape = Shape::Page(page);
    lay_over(docs, &shape, None, env, alloc, cells, copies)
}

/// Lays a node and, under it, documents: the node is put there first, and gets the numbers of its
/// children once they were laid.
#[cycle(laying)]
fn lay_over<C: Ledger>(
    docs: &[Doc],
    shape: &Shape,
    under: Option<NodeId>,
    env: ActId,
    alloc: Global,
    cells: &mut CowVec<NodeCell>,
    copies: &mut Steps<C>,
) -> Result<(), NoMemory>
    ensures new { OnOk result (AreNew cells.old cells.new
        ((documents.lay_over shape.now (map (laid env) docs.now)).nodes (length cells.old) under)) }
    ensures copies { RisesBy (31 * (documents.lay_over shape.now (map (laid env) docs.now)).size)
        copies.old copies.new }
{
    let n = NodeId(cells.len());
    lay_alone(shape, under, alloc, cells, copies)?;
    let children = lay_each(docs, n, env, alloc, cells, copies)?;
    let node = Node::of(shape.copy()?, no_codes(alloc)?, children, under);
    let Ok(()) = cells.set(n.0, new_cell(node), copies) else {
        return Err(AllocError);
    };
    Ok(())
}

/// Lays documents one after another, each under the node, and gives the numbers of their topmost
/// nodes.
#[cycle(laying)]
fn lay_each<C: Ledger>(
    docs: &[Doc],
    under: NodeId,
    env: ActId,
    alloc: Global,
    cells: &mut CowVec<NodeCell>,
    copies: &mut Steps<C>,
) -> Result<Ids, NoMemory>
    ensures new { OnOk result (AreNew cells.old cells.new
        (lay_all (map (laid env) docs.now) (length cells.old) (Some under))) }
    ensures numbers { IfOk result (λ ids. ids
        ≡ numbers (map (laid env) docs.now) (length cells.old)) }
    ensures copies { RisesBy (31 * size_of (map (laid env) docs.now)) copies.old copies.new }
{
    let mut ids = Vec::new(alloc);
    for doc in docs {
        ids.push(NodeId(cells.len()))?;
        lay_doc(doc, Some(under), env, alloc, cells, copies)?;
    }
    Ids::from_vec(alloc, ids)
}

/// The shape of a document's topmost node.
fn shape_of(doc: &Doc) -> Result<Shape, NoMemory>
    ensures { IfOk result (λ shape. shape ≡ top_shape (out-Doc doc.now)) }
{
    match doc {
        Doc::Text(name, text) => Ok(Shape::Text(name.copy()?, text.copy()?)),
        Doc::Link(name, url, label) => Ok(Shape::Link(name.copy()?, url.copy()?, label.copy()?)),
        Doc::TextBox(name, text, _) => Ok(Shape::TextBox(name.copy()?, text.copy()?)),
        Doc::Button(name, label, _) => Ok(Shape::Button(name.copy()?, label.copy()?)),
        Doc::Script(name, body) => Ok(Shape::Script(name.copy()?, false, body.copy()?)),
        Doc::Src(name, url) => Ok(Shape::Src(name.copy()?, false, url.copy()?)),
        Doc::Div(name, _) => Ok(Shape::Div(name.copy()?)),
    }
}

/// The handlers of a document's topmost node, made in an activation.
fn handlers_of(doc: &Doc, env: ActId, alloc: Global) -> Result<Codes, NoMemory>
    ensures { IfOk result (λ codes. codes ≡ top_handlers env (out-Doc doc.now)) }
{
    match doc {
        Doc::TextBox(_, _, handlers) | Doc::Button(_, _, handlers) => {
            codes_of(handlers.as_slice(), env, alloc)
        }
        Doc::Text(..) | Doc::Link(..) | Doc::Script(..) | Doc::Src(..) | Doc::Div(..) => {
            no_codes(alloc)
        }
    }
}

/// Puts a node of this shape, without handlers and children, behind the nodes.
fn lay_alone<C: Ledger>(
    shape: &Shape,
    under: Option<NodeId>,
    alloc: Global,
    cells: &mut CowVec<NodeCell>,
    copies: &mut Steps<C>,
) -> Result<(), NoMemory>
    ensures new { OnOk result (AreNew cells.old cells.new
        ((documents.lay_leaf shape.now []).nodes (length cells.old) under)) }
    ensures copies { RisesBy 15 copies.old copies.new }
{
    lay_leaf(shape.copy()?, no_codes(alloc)?, under, alloc, cells, copies)
}

/// Puts a node without children behind the nodes.
fn lay_leaf<C: Ledger>(
    shape: Shape,
    handlers: Codes,
    under: Option<NodeId>,
    alloc: Global,
    cells: &mut CowVec<NodeCell>,
    copies: &mut Steps<C>,
) -> Result<(), NoMemory>
    ensures new { OnOk result (AreNew cells.old cells.new
        ((documents.lay_leaf shape handlers).nodes (length cells.old) under)) }
    ensures copies { RisesBy 15 copies.old copies.new }
{
    let children = Ids::from_vec(alloc, Vec::new(alloc))?;
    let node = Node::of(shape, handlers, children, under);
    let Ok(()) = cells.push(new_cell(node), copies) else {
        return Err(AllocError);
    };
    Ok(())
}

/// The cell of a node that has its own marks only.
pub(crate) fn new_cell(node: Node) -> NodeCell
    ensures node { result.node ≡ node }
    ensures own { IsOwn node result.marks }
{
    let marks = Marks::of(&node);
    NodeCell { node, marks }
}

/// No handlers.
fn no_codes(alloc: Global) -> Result<Codes, NoMemory>
    ensures { IfOk result (λ codes. codes ≡ []) }
{
    Codes::from_vec(alloc, Vec::new(alloc))
}

/// Handlers as functions made in an activation.
fn codes_of(handlers: &[Handler], env: ActId, alloc: Global) -> Result<Codes, NoMemory>
    ensures { IfOk result (λ codes. codes ≡ map (handler_code env) handlers.now) }
{
    let mut codes = Vec::new(alloc);
    for handler in handlers {
        codes.push(code_of(handler, env, alloc)?)?;
    }
    Codes::from_vec(alloc, codes)
}

/// A handler as a function made in an activation.
fn code_of(handler: &Handler, env: ActId, alloc: Global) -> Result<Code, NoMemory>
    ensures { IfOk result (λ code. code ≡ handler_code env handler.now) }
{
    let mut params = Vec::new(alloc);
    params.push(handler.param.copy()?)?;
    Ok(Code {
        params: Names::from_vec(alloc, params)?,
        body: handler.body.copy()?,
        env,
    })
}
