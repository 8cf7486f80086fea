//! What is read off trees and nodes.
ghost use Rattle.std.specs.Prelude.{◌<◌, length};

use crate::shown::expression;
use anyhow::Result;
use ff_machine::{Kind, MOST_NODES};
use ff_name::Worded;
use ff_nodes::Nodes;
use ff_printing::print_shown;
use ff_value::{Code, NodeId, PageId};
use std::alloc::Global;
use std::io;

/// The kinds, in the order in which they are printed.
const KINDS: [Kind; 8] = [
    Kind::Page,
    Kind::Text,
    Kind::Link,
    Kind::TextBox,
    Kind::Button,
    Kind::Script,
    Kind::Src,
    Kind::Div,
];

/// Prints what is read off the tree of a node.
pub fn tree<R: Print>(rt: &R, alloc: Global, nodes: &Nodes, root: NodeId) -> Result<()>
    requires { root.0 < length nodes.now }
{
    println!(rt; "  shown {}", shown(alloc, nodes, root)?)?;
    print!(rt; "  scripts")?;
    listed(rt, nodes.scripts(root)?.as_slice())?;
    for kind in KINDS.iter() {
        of_kind(rt, nodes, root, *kind)?;
    }
    print!(rt; "  names")?;
    for letter in *b"abcdefgh" {
        named(rt, nodes, root, letter)?;
    }
    println!(rt; "")?;
    page(rt, nodes.page_root_of(root))?;
    Ok(())
}

/// Prints what is read off a node.
pub fn node<R: Print>(rt: &R, alloc: Global, nodes: &Nodes, n: NodeId) -> Result<()>
    requires { n.0 < length nodes.now }
{
    println!(rt; "  kind {}", nodes.kind(n).word())?;
    parts(rt, alloc, nodes, n)?;
    for code in nodes.handlers(n).as_slice() {
        function(rt, alloc, code)?;
    }
    print!(rt; "  children")?;
    for child in nodes.children(n).as_slice() {
        print!(rt; " {}", child.0)?;
    }
    let count = nodes.count(n);
    println!(rt; ", count {count}")?;
    let at = i64::from(count);
    for k in [-1, 0, at - 1, at] {
        child(rt, nodes, n, k)?;
    }
    page(rt, nodes.page_root_of(n))?;
    Ok(())
}

/// Prints the text, the address and the expression of a node that has them.
fn parts<R: Print>(rt: &R, alloc: Global, nodes: &Nodes, n: NodeId) -> Result<()>
    requires { n.0 < length nodes.now }
{
    if let Some(text) = nodes.text(n) {
        println!(rt; "  text {}", text.as_str())?;
    }
    if let Some(url) = nodes.url(n) {
        let mut out = Vec::new(alloc);
        url.print(&mut out)?;
        println!(rt; "  url {}", String::from_utf8(out)?)?;
    }
    if let Some(body) = nodes.body(n) {
        println!(rt; "  body {}", expression(alloc, body.get())?)?;
    }
    Ok(())
}

fn shown(alloc: Global, nodes: &Nodes, root: NodeId) -> Result<String>
    requires { root.0 < length nodes.now }
{
    let shown = nodes.shown(root)?;
    let mut out = Vec::new(alloc);
    print_shown(&shown, &mut out)?;
    Ok(String::from_utf8(out)?)
}

fn function<R: Print>(rt: &R, alloc: Global, code: &Code) -> Result<()> {
    print!(rt; "  handler of")?;
    for param in code.params.as_slice() {
        print!(rt; " {}", param.text().as_str())?;
    }
    println!(rt; ": {}", expression(alloc, code.body.get())?)?;
    Ok(())
}

/// Prints a kind and the numbers of its nodes, each by its own number.
fn of_kind<R: Print>(rt: &R, nodes: &Nodes, root: NodeId, kind: Kind) -> io::Result<()>
    requires { root.0 < length nodes.now }
{
    print!(rt; "  {}", kind.word())?;
    for k in 0..=MOST_NODES {
        match nodes.nth(root, kind, k) {
            Some(found) => print!(rt; " {}", found.0)?,
            None => break,
        }
    }
    println!(rt; "")
}

/// Prints the first node of a name of one small letter.
fn named<R: Print>(rt: &R, nodes: &Nodes, root: NodeId, letter: u8) -> io::Result<()>
    requires { root.0 < length nodes.now }
{
    let name = char::from(letter);
    match nodes.by_name(root, &[letter]) {
        Some(found) => print!(rt; " {name} {}", found.0),
        None => print!(rt; " {name} -"),
    }
}

fn listed<R: Print>(rt: &R, ns: &[NodeId]) -> io::Result<()> {
    for n in ns {
        print!(rt; " {}", n.0)?;
    }
    println!(rt; "")
}

fn child<R: Print>(rt: &R, nodes: &Nodes, n: NodeId, k: i64) -> io::Result<()>
    requires { n.0 < length nodes.now }
{
    match nodes.child(n, k) {
        Some(found) => println!(rt; "  child {k} {}", found.0),
        None => println!(rt; "  child {k} -"),
    }
}

fn page<R: Print>(rt: &R, page: Option<PageId>) -> io::Result<()> {
    match page {
        Some(page) => println!(rt; "  page {}", page.0),
        None => println!(rt; "  page -"),
    }
}
