//! Values of scripts, offers, and the words of kinds and faults.

use ff_value::{
    Act, ActId, Code, Expr, Fault, Input, Kind, Lit, NoMemory, NodeId, Offer, Offers, Shared,
    SharedList, Text, Url, Val, WinId, Worded, by_word,
};
use std::alloc::Global;
use std::io;

/// A function without parameters.
fn thunk(alloc: Global, env: u32) -> Result<Code, NoMemory> {
    Ok(Code {
        params: SharedList::from_vec(alloc, Vec::new(alloc))?,
        body: Shared::new(alloc, Expr::Lit(Lit::Null))?,
        env: ActId(env),
    })
}

/// A value of each sort.
fn val(alloc: Global, place: usize) -> Result<Val, NoMemory> {
    match place {
        0 => Ok(Val::Null),
        1 => Ok(Val::Bool(true)),
        2 => Ok(Val::Num(-7)),
        3 => Ok(Val::Str(Text::of_str(alloc, "hi")?)),
        4 => Ok(Val::Win(WinId(1))),
        5 => Ok(Val::Node(NodeId(1))),
        _ => Ok(Val::Code(thunk(alloc, 3)?)),
    }
}

fn is_copied(val: &Val) -> Result<bool, NoMemory> {
    let copy = val.copy()?;
    Ok(copy == *val)
}

fn at_is_copied(alloc: Global, place: usize) -> Result<bool, NoMemory> {
    let val = val(alloc, place)?;
    is_copied(&val)
}

fn show_vals(rt: &HostRuntime) -> io::Result<()> {
    let sorts = [
        "null",
        "true",
        "-7",
        "\"hi\"",
        "a window",
        "a node",
        "a function",
    ];
    for (place, what) in sorts.into_iter().enumerate() {
        let same = at_is_copied(rt.alloc(), place)?;
        println!(rt; "{what}: {same}")?;
    }
    Ok(())
}

/// Whether the function of an activation equals that of activation 3.
fn is_third(alloc: Global, env: u32) -> Result<bool, NoMemory> {
    let third = thunk(alloc, 3)?;
    let other = thunk(alloc, env)?;
    Ok(other == third)
}

fn show_functions(rt: &HostRuntime) -> io::Result<()> {
    for env in [3, 4] {
        let same = is_third(rt.alloc(), env)?;
        println!(rt; "the function of activation {env} equals that of activation 3: {same}")?;
    }
    Ok(())
}

/// The input that opens an empty window.
fn opening() -> Input {
    Input {
        tag: None,
        act: Act::Opens(Url::Blank),
    }
}

fn show_offers(rt: &HostRuntime) -> io::Result<()> {
    let input = opening();
    let mut offers = Vec::new(rt.alloc());
    offers.push(Offer::Nothing)?;
    offers.push(Offer::Whole)?;
    let offers = Offers::of(&input, offers);
    let same = offers.to(0).is_none() && offers.to(1).is_some_and(|seen| *seen == input);
    println!(rt; "none and then one that opens a window are offered in this order: {same}")
}

fn show_kinds(rt: &HostRuntime) -> io::Result<()> {
    for kind in Kind::all() {
        let found = by_word(kind.word().as_bytes()) == Some(*kind);
        println!(rt; "{kind:?}: {}, found by its word {found}", kind.word())?;
    }
    let none = by_word::<Kind>(b"Open").is_none();
    println!(rt; "the word Open finds no kind: {none}")
}

fn show_faults(rt: &HostRuntime) -> io::Result<()> {
    for fault in [
        Fault::Kind,
        Fault::Name,
        Fault::Range,
        Fault::Overflow,
        Fault::Limit,
        Fault::Depth,
        Fault::Dead,
    ] {
        println!(rt; "{fault:?}: {}", fault.word())?;
    }
    Ok(())
}

/// Prints what values and offers answer, and the words of kinds and faults.
pub fn show(rt: &HostRuntime) -> io::Result<()> {
    println!(rt; "## Whether each value equals its copy")?;
    show_vals(rt)?;
    show_functions(rt)?;
    println!(rt; "## Offers are kept in their order")?;
    show_offers(rt)?;
    println!(rt; "## The kinds, in the order of the lines of a trace")?;
    show_kinds(rt)?;
    println!(rt; "## The word of each fault of a reduction")?;
    show_faults(rt)
}
