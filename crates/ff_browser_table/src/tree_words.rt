//! What a line takes.
ghost use Rattle.std.specs.Prelude.{◌<◌, ◌≤◌, IfOk, length, map};
ghost use Rattle.std.specs.List.{AllByRecursion};
ghost use Rattle.ff_name.specs.declared.limits.TheConstants.{MOST_DEPTH};
ghost use Rattle.ff_text.specs.Printed.{IsWellSpelled};
ghost use Rattle.ff_tree.specs.Spelled.{IsSpelledDoc, IsWellSpelledDoc, IsWellSpelledExpr, doc_depth, most};
ghost use Rattle.ff_value.specs.Spelled.{IsWellSpelledCode, IsWellSpelledResp};

use anyhow::{Context, Result, bail};
use ff_nodes::Nodes;
use ff_reading::{read_doc, read_expr, read_resp};
use ff_text::{MOST_BYTES, Sexp, read};
use ff_value::{ActId, Code, Doc, Docs, Expr, NodeId, Resp};
use std::alloc::Global;

/// A word, and what stands after it.
pub fn parted(line: &str) -> Result<(&str, &str)> {
    line.split_once(' ').context("a word and what it takes")
}

/// The number of 32 bits that a word spells.
pub fn number(word: &str) -> Result<u32> {
    match word.parse::<u32>() {
        Ok(n) => Ok(n),
        Err(_) => bail!("no number: {word}"),
    }
}

/// The place, which may be no place, that a word spells.
pub fn place(word: &str) -> Result<i64> {
    match word.parse::<i64>() {
        Ok(k) => Ok(k),
        Err(_) => bail!("no place: {word}"),
    }
}

/// The node whose number a word spells.
pub fn live(nodes: &Nodes, word: &str) -> Result<NodeId>
    ensures { IfOk result (λ n. n.0 < length nodes.now) }
{
    let n = number(word)?;
    if n >= nodes.len() {
        bail!("no node: {word}");
    }
    Ok(NodeId(n))
}

fn item(alloc: Global, text: &str) -> Result<Sexp>
    ensures { IfOk result IsWellSpelled }
{
    let bytes = text.as_bytes();
    if bytes.len() > MOST_BYTES {
        bail!("a line is too long");
    }
    Ok(read(alloc, bytes)?)
}

/// The document that a text spells.
pub fn document(alloc: Global, text: &str) -> Result<Doc>
    ensures { IfOk result IsWellSpelledDoc }
{
    let item = item(alloc, text)?;
    Ok(read_doc(alloc, &item)?)
}

/// The documents of the page that a text spells as a response.
pub fn documents(alloc: Global, text: &str) -> Result<Docs>
    ensures spelled { IfOk result (λ docs. AllByRecursion IsSpelledDoc docs) }
    ensures shallow { IfOk result (λ docs. most (map doc_depth docs) ≤ MOST_DEPTH) }
{
    docs_of(&response(alloc, text)?)
}

/// The response that a text spells.
pub fn response(alloc: Global, text: &str) -> Result<Resp>
    ensures { IfOk result IsWellSpelledResp }
{
    let item = item(alloc, text)?;
    Ok(read_resp(alloc, &item)?)
}

fn docs_of(response: &Resp) -> Result<Docs>
    requires { IsWellSpelledResp response.now }
    ensures spelled { IfOk result (λ docs. AllByRecursion IsSpelledDoc docs) }
    ensures shallow { IfOk result (λ docs. most (map doc_depth docs) ≤ MOST_DEPTH) }
{
    match response {
        Resp::Page(_, docs) => Ok(docs.copy()?),
        _ => bail!("no page"),
    }
}

/// The function that a text spells, made in activation 0.
pub fn function(alloc: Global, text: &str) -> Result<Code>
    ensures { IfOk result IsWellSpelledCode }
{
    let item = item(alloc, text)?;
    let expr = read_expr(alloc, &item)?;
    code_of(expr)
}

fn code_of(expr: Expr) -> Result<Code>
    requires { IsWellSpelledExpr expr }
    ensures { IfOk result IsWellSpelledCode }
{
    match expr {
        Expr::Make(params, body) => Ok(Code {
            params,
            body,
            env: ActId(0),
        }),
        _ => bail!("no function"),
    }
}
