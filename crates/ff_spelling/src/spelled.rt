//! Which expressions and documents are well spelled: their variables, addresses and numbers of
//! operands are right, and their lists nest no deeper than they may.
//!
//! The tests go down with the room that is left for lists inside lists, so they go no deeper than
//! that. Each takes a time that is linear in what it looks at, but for parameters: n of them take
//! n log n, by a set that is kept of their names. So memory may be wanting, and each says so.
ghost use Rattle.std.specs.Prelude.{◌≡◌, ◌≤◌, ◌↔◌, IsTrue, IfOk, length};
ghost use Rattle.std.specs.List.{AllByRecursion};
ghost use Rattle.ff_tree.specs.declared.limits.TheConstants.{MOST_HANDLERS};
ghost use Rattle.std.specs.Str.{IsUtf8};
ghost use Rattle.ff_name.specs.Spelling.{IsName};
ghost use Rattle.ff_tree.specs.Spelled.{AreParams, Differ, IsVar, IsLit, IsWellSpelledExpr};
ghost use Rattle.ff_spelling.specs.Fits.{FitsDoc, FitsExpr, FitsHandler};
ghost use Rattle.ff_spelling.specs.Told.{both_of};

use crate::addresses::is_url;
use ff_name::{MOST_DEPTH, Name, NoMemory, Text};
use ff_tree::{Doc, Expr, Handler, Lit, MOST_HANDLERS, Names};
use std::alloc::{AllocError, Global};
use std::collections::BTreeSet;

/// Whether a name may be that of a variable.
pub fn is_var(name: &Name) -> bool
    ensures { IsTrue result ↔ IsVar name.now }
{
    let word = name.as_bytes();
    word != b"null".as_slice() && word != b"true".as_slice() && word != b"false".as_slice()
}

/// Whether names may be the parameters of a function: variables that differ.
pub fn are_params(alloc: Global, params: &Names) -> Result<bool, NoMemory>
    ensures { IfOk result (λ are. IsTrue are ↔ AreParams params.now) }
{
    let names = params.as_slice();
    if !are_vars(names) {
        return Ok(false);
    }
    differ(alloc, names)
}

fn are_vars(names: &[Name]) -> bool
    ensures { IsTrue result ↔ AllByRecursion IsVar names.now }
{
    for name in names {
        if !is_var(name) {
            return false;
        }
    }
    true
}

/// Whether no two names are equal.
fn differ(alloc: Global, names: &[Name]) -> Result<bool, NoMemory>
    ensures { IfOk result (λ differ. IsTrue differ ↔ Differ names.now) }
{
    let mut later = BTreeSet::new(alloc);
    let mut i = names.len();
    while i > 0 {
        i -= 1;
        let name = names[i].copy()?;
        match later.insert(name) {
            Ok(true) => {}
            Ok(false) => return Ok(false),
            Err(_refused) => return Err(AllocError),
        }
    }
    Ok(true)
}

/// Whether an expression can be written.
pub fn is_expr(alloc: Global, expr: &Expr) -> Result<bool, NoMemory>
    ensures { IfOk result (λ is. IsTrue is ↔ IsWellSpelledExpr expr.now) }
{
    fits_expr(alloc, expr, MOST_DEPTH)
}

/// A literal can be written, whichever it is.
fn is_lit(lit: &Lit) -> bool
    ensures { IsTrue result ↔ IsLit lit.now }
{
    match lit {
        Lit::Null => true,
        Lit::Bool(_) => true,
        Lit::Num(n) => {
            let _known = *n;
            true
        }
        Lit::Str(text) => {
            let _known = text.as_bytes();
            true
        }
    }
}

/// Whether both hold, where there was memory to tell.
fn both(first: Result<bool, NoMemory>, second: Result<bool, NoMemory>) -> Result<bool, NoMemory>
    ensures { result ≡ both_of first second }
{
    let holds = first?;
    let holds_too = second?;
    Ok(holds && holds_too)
}

/// Whether an expression that has no parts is spelled; no other fits where there is no room.
fn is_word(expr: &Expr) -> bool
    ensures { IsTrue result ↔ FitsExpr 0 expr.now }
{
    match expr {
        Expr::Lit(lit) => is_lit(lit),
        Expr::Var(name) => is_var(name),
        _ => false,
    }
}

/// Whether an expression is spelled, and its lists nest no deeper than the room that there is.
#[cycle(fits)]
fn fits_expr(alloc: Global, expr: &Expr, room: usize) -> Result<bool, NoMemory>
    ensures { IfOk result (λ fits. IsTrue fits ↔ FitsExpr room expr.now) }
{
    if room == 0 {
        return Ok(is_word(expr));
    }
    let inside = room - 1;
    match expr {
        Expr::Lit(lit) => Ok(is_lit(lit)),
        Expr::Var(name) => Ok(is_var(name)),
        Expr::Let(name, body) => both(Ok(is_var(name)), fits_expr(alloc, body.get(), inside)),
        Expr::Set(name, body) => both(Ok(is_var(name)), fits_expr(alloc, body.get(), inside)),
        Expr::If(test, yes, no) => both(
            fits_expr(alloc, test.get(), inside),
            both(
                fits_expr(alloc, yes.get(), inside),
                fits_expr(alloc, no.get(), inside),
            ),
        ),
        Expr::While(left, right) => both(
            fits_expr(alloc, left.get(), inside),
            fits_expr(alloc, right.get(), inside),
        ),
        Expr::And(left, right) => both(
            fits_expr(alloc, left.get(), inside),
            fits_expr(alloc, right.get(), inside),
        ),
        Expr::Or(left, right) => both(
            fits_expr(alloc, left.get(), inside),
            fits_expr(alloc, right.get(), inside),
        ),
        Expr::Do(parts) => fit_exprs(alloc, parts.as_slice(), inside),
        Expr::Make(params, body) => both(
            both(Ok(inside > 0), are_params(alloc, params)),
            fits_expr(alloc, body.get(), inside),
        ),
        Expr::Apply(function, args) => both(
            fits_expr(alloc, function.get(), inside),
            fit_exprs(alloc, args.as_slice(), inside),
        ),
        Expr::Tree(doc) => fits_doc(alloc, doc, inside),
        Expr::Prim(op, args) => both(
            Ok(args.len() == op.arity() as usize),
            fit_exprs(alloc, args.as_slice(), inside),
        ),
    }
}

/// The same of some expressions.
#[cycle(fits)]
fn fit_exprs(alloc: Global, exprs: &[Expr], room: usize) -> Result<bool, NoMemory>
    ensures { IfOk result (λ fit. IsTrue fit ↔ AllByRecursion (FitsExpr room) exprs.now) }
{
    for expr in exprs {
        let fits = fits_expr(alloc, expr, room)?;
        if !fits {
            return Ok(false);
        }
    }
    Ok(true)
}

/// The same of a document.
#[cycle(fits)]
fn fits_doc(alloc: Global, doc: &Doc, room: usize) -> Result<bool, NoMemory>
    ensures { IfOk result (λ fits. IsTrue fits ↔ FitsDoc room doc.now) }
{
    if room == 0 {
        return Ok(false);
    }
    let inside = room - 1;
    match doc {
        Doc::Text(name, text) => Ok(is_named(name, text)),
        Doc::Link(name, url, text) => both(Ok(is_named(name, text)), Ok(is_url(url))),
        Doc::TextBox(name, text, handlers) => both(
            Ok(is_named(name, text)),
            fit_handlers(alloc, handlers.as_slice(), inside),
        ),
        Doc::Button(name, text, handlers) => both(
            Ok(is_named(name, text)),
            fit_handlers(alloc, handlers.as_slice(), inside),
        ),
        Doc::Script(name, body) => both(Ok(is_name(name)), fits_expr(alloc, body.get(), inside)),
        Doc::Src(name, url) => both(Ok(is_name(name)), Ok(is_url(url))),
        Doc::Div(name, docs) => both(Ok(is_name(name)), fit_docs(alloc, docs.as_slice(), inside)),
    }
}

/// The same of some documents.
#[cycle(fits)]
fn fit_docs(alloc: Global, docs: &[Doc], room: usize) -> Result<bool, NoMemory>
    ensures { IfOk result (λ fit. IsTrue fit ↔ AllByRecursion (FitsDoc room) docs.now) }
{
    for doc in docs {
        let fits = fits_doc(alloc, doc, room)?;
        if !fits {
            return Ok(false);
        }
    }
    Ok(true)
}

/// The same of the handlers of a node, which are not too many.
#[cycle(fits)]
fn fit_handlers(alloc: Global, handlers: &[Handler], room: usize) -> Result<bool, NoMemory>
    ensures { IfOk result (λ fit. IsTrue fit
        ↔ ((length handlers.now ≤ MOST_HANDLERS)
        × AllByRecursion (FitsHandler room) handlers.now)) }
{
    for handler in handlers {
        let fits = fits_handler(alloc, handler, room)?;
        if !fits {
            return Ok(false);
        }
    }
    Ok(handlers.len() <= MOST_HANDLERS)
}

#[cycle(fits)]
fn fits_handler(alloc: Global, handler: &Handler, room: usize) -> Result<bool, NoMemory>
    ensures { IfOk result (λ fits. IsTrue fits ↔ FitsHandler room handler.now) }
{
    if room < 2 {
        return Ok(false);
    }
    both(
        Ok(is_var(&handler.param)),
        fits_expr(alloc, handler.body.get(), room - 1),
    )
}

/// A name is spelled, whichever it is.
fn is_name(name: &Name) -> bool
    ensures { IsTrue result ↔ IsName name.now }
{
    let _known = name.as_bytes();
    true
}

/// A name and a text are spelled, whichever they are.
fn is_named(name: &Name, text: &Text) -> bool
    ensures { IsTrue result ↔ (IsName name.now × IsUtf8 text.now) }
{
    let _known = name.as_bytes();
    let _known = text.as_bytes();
    true
}
