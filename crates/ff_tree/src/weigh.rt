ghost use Rattle.std.specs.Prelude.{◌≡◌, sum, map, length};
ghost use Rattle.ff_tree.specs.Weight.{capped, doc_weight, expr_weight, handler_weight, lit_weight};
ghost use Rattle.ff_tree.specs.Weight as weight;

use crate::tree::{Doc, Expr, Handler, Lit};
use ff_name::Text;

/// What each item of the notation weighs, a word, a string or a list, without the bytes of a
/// string.
pub const ITEM: u64 = 16;

/// What a document weighs: 16 for each item of its notation, and the bytes of each string; the
/// greatest `u64` for any larger sum.
#[cycle(weigh)]
pub fn weight_doc(doc: &Doc) -> u64
    ensures { result ≡ capped (doc_weight doc.now) }
{
    match doc {
        Doc::Text(_, text) => string_weight(text).saturating_add(3 * ITEM),
        Doc::Link(_, _, label) => string_weight(label).saturating_add(4 * ITEM),
        Doc::TextBox(_, text, handlers) => weight_handlers(handlers.as_slice())
            .saturating_add(string_weight(text))
            .saturating_add(3 * ITEM),
        Doc::Button(_, label, handlers) => weight_handlers(handlers.as_slice())
            .saturating_add(string_weight(label))
            .saturating_add(3 * ITEM),
        Doc::Script(_, body) => weight_expr(body.get()).saturating_add(3 * ITEM),
        Doc::Src(_, _) => 4 * ITEM,
        Doc::Div(_, parts) => weight_docs(parts.as_slice()).saturating_add(3 * ITEM),
    }
}

/// What some documents weigh together.
#[cycle(weigh)]
pub fn weight_docs(docs: &[Doc]) -> u64
    ensures { result ≡ capped (sum (map doc_weight docs.now)) }
{
    let mut total: u64 = 0;
    for doc in docs {
        total = total.saturating_add(weight_doc(doc));
    }
    total
}

/// What an expression weighs, as `weight_doc`.
#[cycle(weigh)]
pub fn weight_expr(expr: &Expr) -> u64
    ensures { result ≡ capped (expr_weight expr.now) }
{
    match expr {
        Expr::Lit(lit) => weight_lit(lit),
        Expr::Var(_) => ITEM,
        Expr::Let(_, body) | Expr::Set(_, body) => {
            weight_expr(body.get()).saturating_add(3 * ITEM)
        }
        Expr::If(test, yes, no) => weight_expr(test.get())
            .saturating_add(weight_expr(yes.get()))
            .saturating_add(weight_expr(no.get()))
            .saturating_add(2 * ITEM),
        Expr::While(left, right) | Expr::And(left, right) | Expr::Or(left, right) => {
            weight_expr(left.get())
                .saturating_add(weight_expr(right.get()))
                .saturating_add(2 * ITEM)
        }
        Expr::Do(parts) | Expr::Prim(_, parts) => {
            weight_exprs(parts.as_slice()).saturating_add(2 * ITEM)
        }
        Expr::Make(params, body) => weight_expr(body.get())
            .saturating_add(words(params.len()))
            .saturating_add(3 * ITEM),
        Expr::Apply(function, args) => weight_expr(function.get())
            .saturating_add(weight_exprs(args.as_slice()))
            .saturating_add(2 * ITEM),
        Expr::Tree(doc) => weight_doc(doc).saturating_add(2 * ITEM),
    }
}

#[cycle(weigh)]
fn weight_exprs(exprs: &[Expr]) -> u64
    ensures { result ≡ capped (sum (map expr_weight exprs.now)) }
{
    let mut total: u64 = 0;
    for expr in exprs {
        total = total.saturating_add(weight_expr(expr));
    }
    total
}

#[cycle(weigh)]
fn weight_handlers(handlers: &[Handler]) -> u64
    ensures { result ≡ capped (sum (map handler_weight handlers.now)) }
{
    let mut total: u64 = 0;
    for handler in handlers {
        total = total.saturating_add(weight_handler(handler));
    }
    total
}

#[cycle(weigh)]
fn weight_handler(handler: &Handler) -> u64
    ensures { result ≡ capped (handler_weight handler.now) }
{
    weight_expr(handler.body.get()).saturating_add(4 * ITEM)
}

fn weight_lit(lit: &Lit) -> u64
    ensures { result ≡ capped (lit_weight lit.now) }
{
    match lit {
        Lit::Str(text) => string_weight(text),
        _ => ITEM,
    }
}

/// What a string weighs.
pub fn string_weight(text: &Text) -> u64
    ensures { result ≡ capped (weight.string text.now) }
{
    (text.as_bytes().len() as u64).saturating_add(ITEM)
}

/// What so many words weigh.
fn words(count: usize) -> u64
    ensures { result ≡ capped (weight.items count) }
{
    (count as u64).saturating_mul(ITEM)
}
