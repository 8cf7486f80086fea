//! Changes of the trees, and what each answers.
use crate::answers::Answer;
use crate::tree_words::{document, documents, function, live, number, parted, place};
use anyhow::{Result, bail};
use ff_contract::Steps;
use ff_nodes::Nodes;
use ff_value::{ActId, PageId, Text};
use std::alloc::Global;
use std::sync::ledger::Ledger;

/// What the change of a word answers.
pub fn make<C: Ledger>(
    alloc: Global,
    nodes: &mut Nodes,
    word: &str,
    rest: &str,
    copies: &mut Steps<C>,
) -> Result<Answer> {
    match word {
        "make" => tree(alloc, nodes, rest, copies),
        "load" => page(alloc, nodes, rest, copies),
        "many" => many(alloc, nodes, rest, copies),
        "insert" => insert(nodes, rest, copies),
        "text" => text(alloc, nodes, rest, copies),
        "handler" => handler(alloc, nodes, rest, copies),
        "start" => start(nodes, rest, copies),
        _ => bail!("no change: {word}"),
    }
}

fn tree<C: Ledger>(
    alloc: Global,
    nodes: &mut Nodes,
    rest: &str,
    copies: &mut Steps<C>,
) -> Result<Answer> {
    let doc = document(alloc, rest)?;
    Ok(Answer::made(nodes.make(&doc, ActId(0), copies)))
}

fn page<C: Ledger>(
    alloc: Global,
    nodes: &mut Nodes,
    rest: &str,
    copies: &mut Steps<C>,
) -> Result<Answer> {
    let (page, response) = parted(rest)?;
    let page = PageId(number(page)?);
    let docs = documents(alloc, response)?;
    Ok(Answer::made(nodes.load(&docs, page, ActId(0), copies)))
}

fn many<C: Ledger>(
    alloc: Global,
    nodes: &mut Nodes,
    rest: &str,
    copies: &mut Steps<C>,
) -> Result<Answer> {
    let (count, spelled) = parted(rest)?;
    let count = number(count)?;
    let doc = document(alloc, spelled)?;
    for _tree in 0..count {
        let answer = nodes.make(&doc, ActId(0), copies);
        if answer.is_err() {
            return Ok(Answer::made(answer));
        }
    }
    Ok(Answer::Done)
}

fn insert<C: Ledger>(nodes: &mut Nodes, rest: &str, copies: &mut Steps<C>) -> Result<Answer> {
    let (parent, rest) = parted(rest)?;
    let (child, at) = parted(rest)?;
    let parent = live(nodes, parent)?;
    let child = live(nodes, child)?;
    let at = place(at)?;
    Ok(Answer::done(nodes.insert(parent, child, at, copies)))
}

fn text<C: Ledger>(
    alloc: Global,
    nodes: &mut Nodes,
    rest: &str,
    copies: &mut Steps<C>,
) -> Result<Answer> {
    let (n, text) = parted(rest)?;
    let n = live(nodes, n)?;
    let text = Text::of_str(alloc, text)?;
    Ok(Answer::done(nodes.set_text(n, &text, copies)))
}

fn handler<C: Ledger>(
    alloc: Global,
    nodes: &mut Nodes,
    rest: &str,
    copies: &mut Steps<C>,
) -> Result<Answer> {
    let (n, spelled) = parted(rest)?;
    let n = live(nodes, n)?;
    let code = function(alloc, spelled)?;
    Ok(Answer::done(nodes.add_handler(n, &code, copies)))
}

fn start<C: Ledger>(nodes: &mut Nodes, rest: &str, copies: &mut Steps<C>) -> Result<Answer> {
    let n = live(nodes, rest)?;
    nodes.start(n, copies)?;
    Ok(Answer::Done)
}
