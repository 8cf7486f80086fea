//! Shared values and lists, and lists with one owner, inside types that hold themselves.

use ff_shared::{NoMemory, OwnedList, Shared, SharedList};
use std::alloc::Global;
use std::io;

/// A type that holds itself through both shared containers.
#[derive(Debug, PartialEq, Eq, Drop)]
enum Tree {
    Leaf(u8),
    Under(Shared<Tree>),
    Side(SharedList<Tree>),
}

impl Tree {
    fn copy(&self) -> Result<Tree, NoMemory> {
        match self {
            Tree::Leaf(n) => Ok(Tree::Leaf(*n)),
            Tree::Under(tree) => Ok(Tree::Under(tree.copy()?)),
            Tree::Side(trees) => Ok(Tree::Side(trees.copy()?)),
        }
    }
}

/// A leaf under so many containers, in turn a single value and a list of one.
fn nested(alloc: Global, leaf: u8, depth: usize) -> Result<Tree, NoMemory> {
    let mut tree = Tree::Leaf(leaf);
    for place in 0..depth {
        tree = if place % 2 == 0 {
            Tree::Under(Shared::new(alloc, tree)?)
        } else {
            let mut side = Vec::new(alloc);
            side.push(tree)?;
            Tree::Side(SharedList::from_vec(alloc, side)?)
        };
    }
    Ok(tree)
}

/// Whether the copy of a nested value that is let go equals another value made so.
fn copy_outlives(alloc: Global, leaf: u8, depth: usize) -> Result<bool, NoMemory> {
    let tree = nested(alloc, leaf, depth)?;
    let copied = tree.copy()?;
    drop(tree);
    Ok(copied == nested(alloc, leaf, depth)?)
}

/// Whether a nested value equals the one of 7 under 64.
fn is_seven(alloc: Global, leaf: u8, depth: usize) -> Result<bool, NoMemory> {
    let seven = nested(alloc, 7, 64)?;
    Ok(nested(alloc, leaf, depth)? == seven)
}

/// A type that holds itself through lists with one owner.
#[derive(Debug, PartialEq, Eq, Drop)]
enum Row {
    Cell(u8),
    Cells(OwnedList<Row>),
}

/// A cell in so many lists in one another, each of which has another cell first.
fn rows(alloc: Global, cell: u8, depth: usize) -> Result<OwnedList<Row>, NoMemory> {
    let mut row = vec![in alloc; Row::Cell(cell)]?;
    for _ in 0..depth {
        let inner = OwnedList::from_vec(row);
        row = vec![in alloc; Row::Cell(0), Row::Cells(inner)]?;
    }
    Ok(OwnedList::from_vec(row))
}

/// How long a list is that is taken apart and made again, and whether it is that of 7 in 64.
fn given_back(alloc: Global, cell: u8, depth: usize) -> Result<(usize, bool), NoMemory> {
    let list = rows(alloc, cell, depth)?;
    let again = OwnedList::from_vec(list.into_vec());
    Ok((again.len(), again == rows(alloc, 7, 64)?))
}

fn show_list(rt: &HostRuntime) -> io::Result<()> {
    let list = SharedList::from_vec(rt.alloc(), vec![in rt.alloc(); 4_u8, 5_u8]?)?;
    let (len, empty) = (list.len(), list.is_empty());
    let (last, none) = (list.get(1).copied(), list.get(2).copied());
    println!(rt; "a list of 4 and 5: length {len}, empty {empty}, at 1 {last:?}, at 2 {none:?}")
}

/// Prints what shared values and lists answer.
pub fn show(rt: &HostRuntime) -> io::Result<()> {
    println!(rt; "## Shared values, and lists with one owner")?;
    show_list(rt)?;
    let same = copy_outlives(rt.alloc(), 7, 64)?;
    println!(rt; "7 under 64: a copy outlives it and is equal {same}")?;
    for (leaf, depth) in [(7, 64), (8, 64), (7, 63)] {
        let same = is_seven(rt.alloc(), leaf, depth)?;
        println!(rt; "{leaf} under {depth}: equals 7 under 64 {same}")?;
    }
    for (cell, depth) in [(7, 64), (8, 64), (7, 63)] {
        let (len, same) = given_back(rt.alloc(), cell, depth)?;
        println!(rt;
            "{cell} in {depth} lists, given back: length {len}, is that of 7 in 64 {same}"
        )?;
    }
    Ok(())
}
