//! Words, numbers and lists of them, as the parts of a row.
ghost use Rattle.std.specs.Prelude.{◌≡◌, ◌<◌, IfOk};
ghost use Rattle.ff_lattice.specs.declared.names.TheConstants.{MOST_LEVELS};
ghost use Rattle.ff_trace.specs.Parts.{string_in};
ghost use Rattle.ff_saved_rows.specs.Reading as spec;
ghost use Rattle.ff_saved_rows.specs.Reading.{each_in, name_in, params_in, body_in, truth_in, version_in, optional_in, level_in, levels_in};
ghost use Rattle.ff_trace.specs.Lines.{Gives};

use ff_forms::SyntaxFault;
use ff_lattice::{Lattice, LevelSet};
use ff_name::{Level, Name, Text};
use ff_records::WinIds;
use ff_shared::{OwnedList, SharedList};
use ff_text::Sexp;
use ff_trace::{LineFault, read_number, read_string};
use ff_tree::Expr;
use ff_value::{ActId, Body, Ids, Names, NodeId, Shared, WinId};
use std::alloc::Global;

/// The name that a word is.
pub(crate) fn read_name(alloc: Global, item: &Sexp) -> Result<Name, LineFault>
    ensures { Gives result (name_in item.now) }
{
    match ff_reading::read_name(alloc, item) {
        Ok(name) => Ok(name),
        Err(SyntaxFault::NoMemory) => Err(LineFault::NoMemory),
        Err(fault) => Err(LineFault::Syntax(fault)),
    }
}

/// The parameters that an item lists.
pub(crate) fn read_params(alloc: Global, item: &Sexp) -> Result<Names, LineFault>
    ensures { Gives result (params_in item.now) }
{
    match ff_reading::read_parameters(alloc, item) {
        Ok(names) => Ok(names),
        Err(SyntaxFault::NoMemory) => Err(LineFault::NoMemory),
        Err(fault) => Err(LineFault::Syntax(fault)),
    }
}

/// The expression that an item is.
pub(crate) fn read_expr(alloc: Global, item: &Sexp) -> Result<Expr, LineFault>
    ensures { Gives result (body_in item.now) }
{
    match ff_reading::read_expr(alloc, item) {
        Ok(expr) => Ok(expr),
        Err(SyntaxFault::NoMemory) => Err(LineFault::NoMemory),
        Err(fault) => Err(LineFault::Syntax(fault)),
    }
}

/// The expression that an item is, where owners can share it.
pub(crate) fn read_body(alloc: Global, item: &Sexp) -> Result<Body, LineFault>
    ensures { Gives result (body_in item.now) }
{
    let expr = read_expr(alloc, item)?;
    match Shared::new(alloc, expr) {
        Ok(body) => Ok(body),
        Err(_) => Err(LineFault::NoMemory),
    }
}

/// `true` or `false`.
pub(crate) fn read_truth(item: &Sexp) -> Result<bool, LineFault>
    ensures { Gives result (truth_in item.now) }
{
    match item {
        Sexp::Word(_, text) => match truth_of(text.as_bytes()) {
            Some(truth) => Ok(truth),
            None => Err(LineFault::Kind),
        },
        _ => Err(LineFault::Kind),
    }
}

fn truth_of(bytes: &[u8]) -> Option<bool>
    ensures { result ≡ spec.truth_of bytes.now }
{
    match bytes {
        b"true" => Some(true),
        b"false" => Some(false),
        _ => None,
    }
}

/// The version of a saved text: there is one.
pub(crate) fn read_version(item: &Sexp) -> Result<bool, LineFault>
    ensures { Gives result (version_in item.now) }
{
    match item {
        Sexp::Word(_, text) => match version_of(text.as_bytes()) {
            Some(known) => Ok(known),
            None => Err(LineFault::Number),
        },
        _ => Err(LineFault::Number),
    }
}

fn version_of(bytes: &[u8]) -> Option<bool>
    ensures { result ≡ spec.version_of bytes.now }
{
    match bytes {
        b"1" => Some(true),
        _ => None,
    }
}

/// Whether an item is the word `none`.
fn is_none(item: &Sexp) -> bool
    ensures { result ≡ spec.is_none item.now }
{
    match item {
        Sexp::Word(_, text) => text.as_bytes() == b"none".as_slice(),
        _ => false,
    }
}

/// The number of an activation, or `none`.
pub(crate) fn read_parent(item: &Sexp) -> Result<Option<ActId>, LineFault>
    ensures { Gives result (optional_in spec.act_in item.now) }
{
    if is_none(item) {
        Ok(None)
    } else {
        Ok(Some(ActId(read_number(item)?)))
    }
}

/// The number of a window, or `none`.
pub(crate) fn read_opener(item: &Sexp) -> Result<Option<WinId>, LineFault>
    ensures { Gives result (optional_in spec.win_in item.now) }
{
    if is_none(item) {
        Ok(None)
    } else {
        Ok(Some(WinId(read_number(item)?)))
    }
}

/// The name of a window, or `none`.
pub(crate) fn read_win_name(item: &Sexp) -> Result<Option<Text>, LineFault>
    ensures { Gives result (optional_in string_in item.now) }
{
    if is_none(item) {
        Ok(None)
    } else {
        Ok(Some(read_string(item)?))
    }
}

fn read_node(item: &Sexp) -> Result<NodeId, LineFault>
    ensures { Gives result (spec.node_in item.now) }
{
    Ok(NodeId(read_number(item)?))
}

fn read_win(item: &Sexp) -> Result<WinId, LineFault>
    ensures { Gives result (spec.win_in item.now) }
{
    Ok(WinId(read_number(item)?))
}

/// Numbers of nodes.
pub(crate) fn read_nodes(alloc: Global, items: &[Sexp]) -> Result<Ids, LineFault>
    ensures { Gives result (each_in spec.node_in items.now) }
{
    let mut nodes = Vec::new(alloc);
    for item in items {
        nodes.push(read_node(item)?)?;
    }
    Ok(SharedList::from_vec(alloc, nodes)?)
}

/// Numbers of windows.
pub(crate) fn read_wins(alloc: Global, items: &[Sexp]) -> Result<WinIds, LineFault>
    ensures { Gives result (each_in spec.win_in items.now) }
{
    let mut wins = Vec::new(alloc);
    for item in items {
        wins.push(read_win(item)?)?;
    }
    Ok(OwnedList::from_vec(wins))
}

/// The level that a word names.
fn read_level(lattice: &Lattice, item: &Sexp) -> Result<Level, LineFault>
    ensures value { Gives result (level_in lattice.now item.now) }
    ensures few { IfOk result (λ level. level.0 < MOST_LEVELS) }
{
    match item {
        Sexp::Word(_, text) => match lattice.by_name(text.as_bytes()) {
            Some(level) => Ok(level),
            None => Err(LineFault::Level),
        },
        _ => Err(LineFault::Level),
    }
}

/// The set of the levels that words name.
pub(crate) fn read_levels(lattice: &Lattice, items: &[Sexp]) -> Result<LevelSet, LineFault>
    ensures { Gives result (levels_in lattice.now items.now) }
{
    let mut levels = LevelSet::empty();
    for item in items {
        levels = levels.with(read_level(lattice, item)?);
    }
    Ok(levels)
}
