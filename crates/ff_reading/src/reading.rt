//! Documents, expressions and responses, read from items: a list for its head, then its count, then
//! its parts from left to right, each whole before the next.
ghost use Rattle.std.specs.Prelude.{map};
ghost use Rattle.ff_forms.specs.Grammar.{Gives, reading, a_handler, an_expression, a_document, a_response, list_as, each_as, form_as, handler_as, handler_form, doc_form, expr_form, resp_form};
ghost use Rattle.ff_forms.specs.Heads.{doc_word, expr_word, resp_word, doc_heads, expr_heads, resp_heads};
ghost use Rattle.ff_forms.specs.declared.heads.DocHead.TheVariants as doc_head;
ghost use Rattle.ff_forms.specs.declared.heads.ExprHead.TheVariants as expr_head;
ghost use Rattle.ff_forms.specs.declared.heads.HandlerHead.TheVariants as handler_head;
ghost use Rattle.ff_forms.specs.declared.heads.RespHead.TheVariants as resp_head;

use crate::leaves::{
    read_address, read_cookies, read_name, read_one_parameter, read_parameters, read_string,
    read_variable,
};
use crate::shapes::{as_list, head_of};
use crate::words::read_word;
use ff_forms::{DocHead, ExprHead, HandlerHead, RespHead, SyntaxFault};
use ff_text::Sexp;
use ff_value::{
    Body, Doc, Docs, Expr, Exprs, Handler, Handlers, Lit, MOST_HANDLERS, Op, Resp, Shared,
    SharedList,
};
use std::alloc::Global;

/// The response that an item is.
pub(crate) fn read_resp(alloc: Global, item: &Sexp) -> Result<Resp, SyntaxFault>
    ensures { Gives result (reading item.now a_response) }
{
    let (at, parts) = as_list(item)?;
    read_resp_list(alloc, at, parts)
}

fn read_resp_list(alloc: Global, at: u32, items: &[Sexp]) -> Result<Resp, SyntaxFault>
    ensures { Gives result (list_as resp_word resp_heads resp_form at (map reading items.now)) }
{
    match items.split_first() {
        Some((first, parts)) => read_resp_form(alloc, at, head_of(first)?, parts),
        None => Err(SyntaxFault::Head(at)),
    }
}

fn read_resp_form(
    alloc: Global,
    at: u32,
    head: RespHead,
    parts: &[Sexp],
) -> Result<Resp, SyntaxFault>
    ensures { Gives result (form_as at (resp_form head) (map reading parts.now)) }
{
    match head {
        RespHead::Page => read_page(alloc, at, parts),
        RespHead::Script => read_script_resp(alloc, at, parts),
        RespHead::Data => read_data(alloc, at, parts),
    }
}

/// `(doc COOKIES DOC*)`.
fn read_page(alloc: Global, at: u32, parts: &[Sexp]) -> Result<Resp, SyntaxFault>
    ensures { Gives result (form_as at (resp_form resp_head.Page) (map reading parts.now)) }
{
    match parts {
        [cookies, docs @ ..] => Ok(Resp::Page(
            read_cookies(alloc, cookies)?,
            read_docs(alloc, docs)?,
        )),
        _ => Err(SyntaxFault::Count(at)),
    }
}

/// `(script COOKIES EXPR)`.
fn read_script_resp(alloc: Global, at: u32, parts: &[Sexp]) -> Result<Resp, SyntaxFault>
    ensures { Gives result (form_as at (resp_form resp_head.Script) (map reading parts.now)) }
{
    match parts {
        [cookies, body] => Ok(Resp::Script(read_cookies(alloc, cookies)?, read_body(alloc, body)?)),
        _ => Err(SyntaxFault::Count(at)),
    }
}

/// `(data COOKIES STR)`.
fn read_data(alloc: Global, at: u32, parts: &[Sexp]) -> Result<Resp, SyntaxFault>
    ensures { Gives result (form_as at (resp_form resp_head.Data) (map reading parts.now)) }
{
    match parts {
        [cookies, text] => Ok(Resp::Data(read_cookies(alloc, cookies)?, read_string(text)?)),
        _ => Err(SyntaxFault::Count(at)),
    }
}

/// The document that an item is.
#[cycle(read)]
pub(crate) fn read_doc(alloc: Global, item: &Sexp) -> Result<Doc, SyntaxFault>
    ensures { Gives result (reading item.now a_document) }
{
    let (at, parts) = as_list(item)?;
    read_doc_list(alloc, at, parts)
}

#[cycle(read)]
fn read_doc_list(alloc: Global, at: u32, items: &[Sexp]) -> Result<Doc, SyntaxFault>
    ensures { Gives result (list_as doc_word doc_heads doc_form at (map reading items.now)) }
{
    match items.split_first() {
        Some((first, parts)) => read_doc_form(alloc, at, head_of(first)?, parts),
        None => Err(SyntaxFault::Head(at)),
    }
}

#[cycle(read)]
fn read_doc_form(alloc: Global, at: u32, head: DocHead, parts: &[Sexp]) -> Result<Doc, SyntaxFault>
    ensures { Gives result (form_as at (doc_form head) (map reading parts.now)) }
{
    match head {
        DocHead::Text => read_text(alloc, at, parts),
        DocHead::Link => read_link(alloc, at, parts),
        DocHead::TextBox => read_text_box(alloc, at, parts),
        DocHead::Button => read_button(alloc, at, parts),
        DocHead::Script => read_script(alloc, at, parts),
        DocHead::Src => read_src(alloc, at, parts),
        DocHead::Div => read_div(alloc, at, parts),
    }
}

/// `(text NAME STR)`.
fn read_text(alloc: Global, at: u32, parts: &[Sexp]) -> Result<Doc, SyntaxFault>
    ensures { Gives result (form_as at (doc_form doc_head.Text) (map reading parts.now)) }
{
    match parts {
        [name, text] => Ok(Doc::Text(read_name(alloc, name)?, read_string(text)?)),
        _ => Err(SyntaxFault::Count(at)),
    }
}

/// `(link NAME URL STR)`.
fn read_link(alloc: Global, at: u32, parts: &[Sexp]) -> Result<Doc, SyntaxFault>
    ensures { Gives result (form_as at (doc_form doc_head.Link) (map reading parts.now)) }
{
    match parts {
        [name, url, label] => Ok(Doc::Link(
            read_name(alloc, name)?,
            read_address(alloc, url)?,
            read_string(label)?,
        )),
        _ => Err(SyntaxFault::Count(at)),
    }
}

/// `(box NAME STR FN*)`.
#[cycle(read)]
fn read_text_box(alloc: Global, at: u32, parts: &[Sexp]) -> Result<Doc, SyntaxFault>
    ensures { Gives result (form_as at (doc_form doc_head.TextBox) (map reading parts.now)) }
{
    match parts {
        [name, text, handlers @ ..] => {
            if handlers.len() > MOST_HANDLERS {
                return Err(SyntaxFault::Count(at));
            }
            Ok(Doc::TextBox(
                read_name(alloc, name)?,
                read_string(text)?,
                read_handlers(alloc, handlers)?,
            ))
        }
        _ => Err(SyntaxFault::Count(at)),
    }
}

/// `(button NAME STR FN*)`.
#[cycle(read)]
fn read_button(alloc: Global, at: u32, parts: &[Sexp]) -> Result<Doc, SyntaxFault>
    ensures { Gives result (form_as at (doc_form doc_head.Button) (map reading parts.now)) }
{
    match parts {
        [name, label, handlers @ ..] => {
            if handlers.len() > MOST_HANDLERS {
                return Err(SyntaxFault::Count(at));
            }
            Ok(Doc::Button(
                read_name(alloc, name)?,
                read_string(label)?,
                read_handlers(alloc, handlers)?,
            ))
        }
        _ => Err(SyntaxFault::Count(at)),
    }
}

/// `(script NAME EXPR)`.
#[cycle(read)]
fn read_script(alloc: Global, at: u32, parts: &[Sexp]) -> Result<Doc, SyntaxFault>
    ensures { Gives result (form_as at (doc_form doc_head.Script) (map reading parts.now)) }
{
    match parts {
        [name, body] => Ok(Doc::Script(read_name(alloc, name)?, read_body(alloc, body)?)),
        _ => Err(SyntaxFault::Count(at)),
    }
}

/// `(src NAME URL)`.
fn read_src(alloc: Global, at: u32, parts: &[Sexp]) -> Result<Doc, SyntaxFault>
    ensures { Gives result (form_as at (doc_form doc_head.Src) (map reading parts.now)) }
{
    match parts {
        [name, url] => Ok(Doc::Src(read_name(alloc, name)?, read_address(alloc, url)?)),
        _ => Err(SyntaxFault::Count(at)),
    }
}

/// `(div NAME DOC*)`.
#[cycle(read)]
fn read_div(alloc: Global, at: u32, parts: &[Sexp]) -> Result<Doc, SyntaxFault>
    ensures { Gives result (form_as at (doc_form doc_head.Div) (map reading parts.now)) }
{
    match parts {
        [name, docs @ ..] => Ok(Doc::Div(read_name(alloc, name)?, read_docs(alloc, docs)?)),
        _ => Err(SyntaxFault::Count(at)),
    }
}

#[cycle(read)]
fn read_docs(alloc: Global, parts: &[Sexp]) -> Result<Docs, SyntaxFault>
    ensures { Gives result (each_as a_document (map reading parts.now)) }
{
    let mut docs = Vec::new(alloc);
    for part in parts {
        docs.push(read_doc(alloc, part)?)?;
    }
    Ok(SharedList::from_vec(alloc, docs)?)
}

#[cycle(read)]
fn read_handlers(alloc: Global, parts: &[Sexp]) -> Result<Handlers, SyntaxFault>
    ensures { Gives result (each_as a_handler (map reading parts.now)) }
{
    let mut handlers = Vec::new(alloc);
    for part in parts {
        handlers.push(read_handler(alloc, part)?)?;
    }
    Ok(SharedList::from_vec(alloc, handlers)?)
}

#[cycle(read)]
fn read_handler(alloc: Global, item: &Sexp) -> Result<Handler, SyntaxFault>
    ensures { Gives result (reading item.now a_handler) }
{
    let (at, parts) = as_list(item)?;
    read_handler_list(alloc, at, parts)
}

#[cycle(read)]
fn read_handler_list(alloc: Global, at: u32, items: &[Sexp]) -> Result<Handler, SyntaxFault>
    ensures { Gives result (handler_as at (map reading items.now)) }
{
    match items.split_first() {
        Some((first, parts)) => read_handler_form(alloc, at, head_of(first)?, parts),
        None => Err(SyntaxFault::Head(at)),
    }
}

/// `(fn (VAR) EXPR)`.
#[cycle(read)]
fn read_handler_form(
    alloc: Global,
    at: u32,
    head: HandlerHead,
    parts: &[Sexp],
) -> Result<Handler, SyntaxFault>
    ensures { Gives result (form_as at (handler_form head) (map reading parts.now)) }
{
    match parts {
        [param, body] => Ok(Handler {
            param: read_one_parameter(alloc, param)?,
            body: read_body(alloc, body)?,
        }),
        _ => Err(SyntaxFault::Count(at)),
    }
}

/// The expression that an item is.
#[cycle(read)]
pub(crate) fn read_expr(alloc: Global, item: &Sexp) -> Result<Expr, SyntaxFault>
    ensures { Gives result (reading item.now an_expression) }
{
    match item {
        Sexp::Word(at, word) => read_word(alloc, at.from, word.as_bytes()),
        Sexp::Str(_, text) => Ok(Expr::Lit(Lit::Str(text.copy()?))),
        Sexp::List(at, parts) => read_expr_list(alloc, at.from, parts.as_slice()),
    }
}

/// The expression that an item is, where owners can share it.
#[cycle(read)]
fn read_body(alloc: Global, item: &Sexp) -> Result<Body, SyntaxFault>
    ensures { Gives result (reading item.now an_expression) }
{
    Ok(Shared::new(alloc, read_expr(alloc, item)?)?)
}

#[cycle(read)]
fn read_exprs(alloc: Global, parts: &[Sexp]) -> Result<Exprs, SyntaxFault>
    ensures { Gives result (each_as an_expression (map reading parts.now)) }
{
    let mut exprs = Vec::new(alloc);
    for part in parts {
        exprs.push(read_expr(alloc, part)?)?;
    }
    Ok(SharedList::from_vec(alloc, exprs)?)
}

#[cycle(read)]
fn read_expr_list(alloc: Global, at: u32, items: &[Sexp]) -> Result<Expr, SyntaxFault>
    ensures { Gives result (list_as expr_word expr_heads expr_form at (map reading items.now)) }
{
    match items.split_first() {
        Some((first, parts)) => read_expr_form(alloc, at, head_of(first)?, parts),
        None => Err(SyntaxFault::Head(at)),
    }
}

#[cycle(read)]
fn read_expr_form(
    alloc: Global,
    at: u32,
    head: ExprHead,
    parts: &[Sexp],
) -> Result<Expr, SyntaxFault>
    ensures { Gives result (form_as at (expr_form head) (map reading parts.now)) }
{
    match head {
        ExprHead::Let => read_let(alloc, at, parts),
        ExprHead::Set => read_set(alloc, at, parts),
        ExprHead::If => read_if(alloc, at, parts),
        ExprHead::While => read_while(alloc, at, parts),
        ExprHead::Do => read_do(alloc, at, parts),
        ExprHead::And => read_and(alloc, at, parts),
        ExprHead::Or => read_or(alloc, at, parts),
        ExprHead::Make => read_make(alloc, at, parts),
        ExprHead::Apply => read_apply(alloc, at, parts),
        ExprHead::Tree => read_tree(alloc, at, parts),
        ExprHead::Prim(op) => read_prim(alloc, at, op, parts),
    }
}

/// `(let VAR E)`.
#[cycle(read)]
fn read_let(alloc: Global, at: u32, parts: &[Sexp]) -> Result<Expr, SyntaxFault>
    ensures { Gives result (form_as at (expr_form expr_head.Let) (map reading parts.now)) }
{
    match parts {
        [name, body] => Ok(Expr::Let(read_variable(alloc, name)?, read_body(alloc, body)?)),
        _ => Err(SyntaxFault::Count(at)),
    }
}

/// `(set VAR E)`.
#[cycle(read)]
fn read_set(alloc: Global, at: u32, parts: &[Sexp]) -> Result<Expr, SyntaxFault>
    ensures { Gives result (form_as at (expr_form expr_head.Set) (map reading parts.now)) }
{
    match parts {
        [name, body] => Ok(Expr::Set(read_variable(alloc, name)?, read_body(alloc, body)?)),
        _ => Err(SyntaxFault::Count(at)),
    }
}

/// `(if E E E)`.
#[cycle(read)]
fn read_if(alloc: Global, at: u32, parts: &[Sexp]) -> Result<Expr, SyntaxFault>
    ensures { Gives result (form_as at (expr_form expr_head.If) (map reading parts.now)) }
{
    match parts {
        [test, first, second] => Ok(Expr::If(
            read_body(alloc, test)?,
            read_body(alloc, first)?,
            read_body(alloc, second)?,
        )),
        _ => Err(SyntaxFault::Count(at)),
    }
}

/// `(while E E)`.
#[cycle(read)]
fn read_while(alloc: Global, at: u32, parts: &[Sexp]) -> Result<Expr, SyntaxFault>
    ensures { Gives result (form_as at (expr_form expr_head.While) (map reading parts.now)) }
{
    match parts {
        [test, body] => Ok(Expr::While(read_body(alloc, test)?, read_body(alloc, body)?)),
        _ => Err(SyntaxFault::Count(at)),
    }
}

/// `(do E*)`.
#[cycle(read)]
fn read_do(alloc: Global, at: u32, parts: &[Sexp]) -> Result<Expr, SyntaxFault>
    ensures { Gives result (form_as at (expr_form expr_head.Do) (map reading parts.now)) }
{
    Ok(Expr::Do(read_exprs(alloc, parts)?))
}

/// `(and E E)`.
#[cycle(read)]
fn read_and(alloc: Global, at: u32, parts: &[Sexp]) -> Result<Expr, SyntaxFault>
    ensures { Gives result (form_as at (expr_form expr_head.And) (map reading parts.now)) }
{
    match parts {
        [left, right] => Ok(Expr::And(read_body(alloc, left)?, read_body(alloc, right)?)),
        _ => Err(SyntaxFault::Count(at)),
    }
}

/// `(or E E)`.
#[cycle(read)]
fn read_or(alloc: Global, at: u32, parts: &[Sexp]) -> Result<Expr, SyntaxFault>
    ensures { Gives result (form_as at (expr_form expr_head.Or) (map reading parts.now)) }
{
    match parts {
        [left, right] => Ok(Expr::Or(read_body(alloc, left)?, read_body(alloc, right)?)),
        _ => Err(SyntaxFault::Count(at)),
    }
}

/// `(fn (VAR*) E)`.
#[cycle(read)]
fn read_make(alloc: Global, at: u32, parts: &[Sexp]) -> Result<Expr, SyntaxFault>
    ensures { Gives result (form_as at (expr_form expr_head.Make) (map reading parts.now)) }
{
    match parts {
        [params, body] => Ok(Expr::Make(read_parameters(alloc, params)?, read_body(alloc, body)?)),
        _ => Err(SyntaxFault::Count(at)),
    }
}

/// `(call E E*)`.
#[cycle(read)]
fn read_apply(alloc: Global, at: u32, parts: &[Sexp]) -> Result<Expr, SyntaxFault>
    ensures { Gives result (form_as at (expr_form expr_head.Apply) (map reading parts.now)) }
{
    match parts {
        [function, args @ ..] => Ok(Expr::Apply(
            read_body(alloc, function)?,
            read_exprs(alloc, args)?,
        )),
        _ => Err(SyntaxFault::Count(at)),
    }
}

/// `(new DOC)`.
#[cycle(read)]
fn read_tree(alloc: Global, at: u32, parts: &[Sexp]) -> Result<Expr, SyntaxFault>
    ensures { Gives result (form_as at (expr_form expr_head.Tree) (map reading parts.now)) }
{
    match parts {
        [doc] => Ok(Expr::Tree(read_doc(alloc, doc)?)),
        _ => Err(SyntaxFault::Count(at)),
    }
}

/// An operator with its operands.
#[cycle(read)]
fn read_prim(alloc: Global, at: u32, op: Op, parts: &[Sexp]) -> Result<Expr, SyntaxFault>
    ensures { Gives result (form_as at (expr_form (expr_head.Prim op)) (map reading parts.now)) }
{
    if parts.len() != op.arity() as usize {
        return Err(SyntaxFault::Count(at));
    }
    Ok(Expr::Prim(op, read_exprs(alloc, parts)?))
}
