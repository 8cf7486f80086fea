//! Documents, expressions and responses: what each is, what it weighs, and its canonical spelling,
//! where it equals its copy.

use crate::spelling::{address, text_of};
use anyhow::{Result, bail};
use ff_printing::{print_doc, print_expr, print_resp};
use ff_reading::{read_doc, read_expr, read_resp};
use ff_text::{MOST_BYTES, Sexp, read};
use ff_tree::weight_expr;
use ff_value::{
    CookieOp, Doc, Expr, Handler, Lit, NoMemory, Resp, Worded, weight_doc, weight_resp,
};
use std::alloc::Global;

/// The document that the bytes spell, or why they spell none.
pub fn document(alloc: Global, bytes: &[u8]) -> Result<String> {
    match read_doc(alloc, &item(alloc, bytes)?) {
        Ok(doc) => spelled_doc(alloc, &doc),
        Err(fault) => Ok(format!(in alloc; "{fault}")?),
    }
}

/// The expression that the bytes spell, or why they spell none.
pub fn expression(alloc: Global, bytes: &[u8]) -> Result<String> {
    match read_expr(alloc, &item(alloc, bytes)?) {
        Ok(expr) => spelled_expr(alloc, &expr),
        Err(fault) => Ok(format!(in alloc; "{fault}")?),
    }
}

/// The response that the bytes spell, or why they spell none.
pub fn response(alloc: Global, bytes: &[u8]) -> Result<String> {
    match read_resp(alloc, &item(alloc, bytes)?) {
        Ok(resp) => spelled_resp(alloc, &resp),
        Err(fault) => Ok(format!(in alloc; "{fault}")?),
    }
}

fn item(alloc: Global, bytes: &[u8]) -> Result<Sexp> {
    if bytes.len() > MOST_BYTES {
        bail!("a text is too long");
    }
    Ok(read(alloc, bytes)?)
}

fn spelled_doc(alloc: Global, doc: &Doc) -> Result<String> {
    if !is_doc_copied(doc)? || !are_handlers_copied(handlers_of(doc))? {
        bail!("a document isn't its copy");
    }
    let mut out = Vec::new(alloc);
    print_doc(doc, &mut out)?;
    with_spelling(alloc, doc_words(alloc, doc)?, weight_doc(doc), out)
}

fn is_doc_copied(doc: &Doc) -> Result<bool, NoMemory> {
    let copy = doc.copy()?;
    Ok(copy == *doc)
}

fn handlers_of(doc: &Doc) -> &[Handler] {
    match doc {
        Doc::TextBox(_, _, handlers) | Doc::Button(_, _, handlers) => handlers.as_slice(),
        _ => &[],
    }
}

fn are_handlers_copied(handlers: &[Handler]) -> Result<bool, NoMemory> {
    for handler in handlers {
        if !is_handler_copied(handler)? {
            return Ok(false);
        }
    }
    Ok(true)
}

fn is_handler_copied(handler: &Handler) -> Result<bool, NoMemory> {
    let copy = handler.copy()?;
    Ok(copy == *handler)
}

fn spelled_expr(alloc: Global, expr: &Expr) -> Result<String> {
    if !is_expr_copied(expr)? {
        bail!("an expression isn't its copy");
    }
    let mut out = Vec::new(alloc);
    print_expr(expr, &mut out)?;
    with_spelling(alloc, expr_words(alloc, expr)?, weight_expr(expr), out)
}

fn is_expr_copied(expr: &Expr) -> Result<bool, NoMemory> {
    let copy = expr.copy()?;
    Ok(copy == *expr)
}

fn spelled_resp(alloc: Global, resp: &Resp) -> Result<String> {
    if !is_resp_copied(resp)? || !are_cookies_copied(cookies_of(resp))? {
        bail!("a response isn't its copy");
    }
    let mut out = Vec::new(alloc);
    print_resp(resp, &mut out)?;
    with_spelling(alloc, resp_words(alloc, resp)?, weight_resp(resp), out)
}

fn is_resp_copied(resp: &Resp) -> Result<bool, NoMemory> {
    let copy = resp.copy()?;
    Ok(copy == *resp)
}

fn cookies_of(resp: &Resp) -> &[CookieOp] {
    match resp {
        Resp::Page(cookies, _) | Resp::Script(cookies, _) | Resp::Data(cookies, _) => {
            cookies.as_slice()
        }
    }
}

fn are_cookies_copied(cookies: &[CookieOp]) -> Result<bool, NoMemory> {
    for cookie in cookies {
        if !is_cookie_copied(cookie)? {
            return Ok(false);
        }
    }
    Ok(true)
}

fn is_cookie_copied(cookie: &CookieOp) -> Result<bool, NoMemory> {
    let copy = cookie.copy()?;
    Ok(copy == *cookie)
}

/// What a value is and weighs, and below it how it is spelled.
fn with_spelling(alloc: Global, words: String, weight: u64, spelling: Vec<u8>) -> Result<String> {
    let spelling = text_of(alloc, spelling)?;
    Ok(format!(in alloc; "{words}, weighs {weight}\n{spelling}")?)
}

fn doc_words(alloc: Global, doc: &Doc) -> Result<String> {
    match doc {
        Doc::Text(name, _) => named(alloc, "a text", name.text().as_str()),
        Doc::Link(name, url, _) => to_address(
            alloc,
            "a link",
            name.text().as_str(),
            address(alloc, url)?.as_str(),
        ),
        Doc::TextBox(name, _, handlers) => {
            counted(alloc, "a text box", name.text().as_str(), handlers.len())
        }
        Doc::Button(name, _, handlers) => {
            counted(alloc, "a button", name.text().as_str(), handlers.len())
        }
        Doc::Script(name, _) => named(alloc, "an inline script", name.text().as_str()),
        Doc::Src(name, url) => to_address(
            alloc,
            "a script to be fetched",
            name.text().as_str(),
            address(alloc, url)?.as_str(),
        ),
        Doc::Div(name, parts) => { counted(alloc, "a division", name.text().as_str(), parts.len()) }
    }
}

fn named(alloc: Global, what: &str, name: &str) -> Result<String> {
    Ok(format!(in alloc; "{what} named {name}")?)
}

fn to_address(alloc: Global, what: &str, name: &str, address: &str) -> Result<String> {
    Ok(format!(in alloc; "{what} named {name}, address {address}")?)
}

fn counted(alloc: Global, what: &str, name: &str, parts: usize) -> Result<String> {
    Ok(format!(in alloc; "{what} named {name}, handlers or parts: {parts}")?)
}

fn expr_words(alloc: Global, expr: &Expr) -> Result<String> {
    match expr {
        Expr::Lit(lit) => lit_words(alloc, lit),
        Expr::Var(name) => named(alloc, "a variable", name.text().as_str()),
        Expr::Let(name, _) => named(alloc, "a declaration", name.text().as_str()),
        Expr::Set(name, _) => named(alloc, "an assignment", name.text().as_str()),
        Expr::If(_, _, _) => Ok(format!(in alloc; "a choice")?),
        Expr::While(_, _) => Ok(format!(in alloc; "a loop")?),
        Expr::Do(parts) => sized(alloc, "a sequence", parts.len()),
        Expr::And(_, _) => Ok(format!(in alloc; "both")?),
        Expr::Or(_, _) => Ok(format!(in alloc; "either")?),
        Expr::Make(params, _) => sized(alloc, "a function", params.len()),
        Expr::Apply(_, args) => sized(alloc, "a call", args.len()),
        Expr::Tree(_) => Ok(format!(in alloc; "a new tree")?),
        Expr::Prim(op, args) => sized(alloc, op.word(), args.len()),
    }
}

fn lit_words(alloc: Global, lit: &Lit) -> Result<String> {
    match lit {
        Lit::Null => Ok(format!(in alloc; "nothing")?),
        Lit::Bool(b) => Ok(format!(in alloc; "the truth value {b}")?),
        Lit::Num(n) => Ok(format!(in alloc; "the number {n}")?),
        Lit::Str(text) => Ok(format!(in alloc; "the text {:?}", text.as_str())?),
    }
}

fn sized(alloc: Global, what: &str, parts: usize) -> Result<String> {
    Ok(format!(in alloc; "{what}, parts or operands: {parts}")?)
}

fn resp_words(alloc: Global, resp: &Resp) -> Result<String> {
    match resp {
        Resp::Page(cookies, docs) => {
            Ok(format!(in alloc; "a page, cookies: {}, parts: {}", cookies.len(), docs.len())?)
        }
        Resp::Script(cookies, _) => {
            Ok(format!(in alloc; "a script, cookies: {}", cookies.len())?)
        }
        Resp::Data(cookies, text) => Ok(format!(in alloc;
            "data, cookies: {}, text {:?}",
            cookies.len(),
            text.as_str()
        )?),
    }
}
