//! Node trees, as lines say.
//!
//! A line is a word and what it takes, separated by single blanks. Nodes go by their numbers.
//!
//! - `make DOCUMENT` makes a tree of a document, `load PAGE RESPONSE` one of a page, and
//!   `many COUNT DOCUMENT` so many, up to the first that is refused.
//! - `insert PARENT CHILD PLACE`, `text NODE TEXT`, `handler NODE FUNCTION` and `start NODE` change
//!   nodes.
//! - `fork` keeps a fork of the trees in place of the one before, and `swap` goes on with the fork,
//!   and keeps the trees in its place.
//! - `tree NODE` prints what is read off the tree of a node: what is shown of it, its scripts that
//!   weren't started, the nodes of each kind by their numbers, the first of each name that is one
//!   of the letters from a to h, and the page in whose tree it stands.
//! - `node NODE` prints what is read off the node itself, and `len` how many nodes were made.

use crate::tree_words::{live, parted};
use crate::{tree_changes, tree_shown};
use anyhow::Result;
use ff_contract::Steps;
use ff_nodes::Nodes;
use std::alloc::Global;
use std::mem;
use std::sync::ledger::Ledger;

/// The trees, and the fork that is kept.
#[derive(Drop)]
pub struct Trees {
    nodes: Nodes,
    kept: Nodes,
}

impl Trees {
    /// No nodes.
    pub fn new(alloc: Global) -> Trees {
        Trees {
            nodes: Nodes::new(alloc),
            kept: Nodes::new(alloc),
        }
    }
}

/// Does what a line says.
pub fn follow<C: Ledger>(
    rt: &HostRuntime,
    table: &mut Trees,
    line: &str,
    copies: &mut Steps<C>,
) -> Result<()> {
    match line {
        "fork" => keep(table, copies),
        "swap" => swap(table),
        "len" => len(rt, &table.nodes),
        _ => take(rt, &mut table.nodes, line, copies),
    }
}

fn keep<C: Ledger>(table: &mut Trees, copies: &mut Steps<C>) -> Result<()> {
    table.kept = table.nodes.fork(copies)?;
    Ok(())
}

fn swap(table: &mut Trees) -> Result<()> {
    mem::swap(&mut table.nodes, &mut table.kept);
    Ok(())
}

fn len(rt: &HostRuntime, nodes: &Nodes) -> Result<()> {
    println!(rt; "  {}", nodes.len())?;
    Ok(())
}

/// Prints what a line gives that changes nodes, or that reads off them.
fn take<C: Ledger>(
    rt: &HostRuntime,
    nodes: &mut Nodes,
    line: &str,
    copies: &mut Steps<C>,
) -> Result<()> {
    let (word, rest) = parted(line)?;
    match word {
        "tree" => {
            let root = live(nodes, rest)?;
            tree_shown::tree(rt, rt.alloc(), nodes, root)
        }
        "node" => {
            let n = live(nodes, rest)?;
            tree_shown::node(rt, rt.alloc(), nodes, n)
        }
        _ => {
            let answer = tree_changes::make(rt.alloc(), nodes, word, rest, copies)?;
            answer.show(rt)?;
            Ok(())
        }
    }
}
