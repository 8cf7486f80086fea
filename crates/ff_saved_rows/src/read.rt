//! Rows, read.
ghost use Rattle.std.specs.Prelude.{◌≡◌, ◌⊎◌, ◌≤◌, Ok, Err, Some, length, IfOk, IfErr};
ghost use Rattle.ff_text.specs.declared.reading.TheConstants.{MOST_BYTES};
ghost use Rattle.ff_trace.specs.declared.fault.LineFault.{LineFault};
ghost use Rattle.ff_saved_rows.specs.Reading as spec;
ghost use Rattle.ff_saved_rows.specs.Reading.{ReadsRow, row_in, row_of, shape_in, shape_of};
ghost use Rattle.ff_trace.specs.Lines.{Gives};
ghost use Rattle.ff_saved_rows.specs.Rows.{IsRow, FitsLine, row_text};
ghost use Rattle.ff_saved_rows.specs.declared.row.Row.{Row};

use crate::kinds::RowKind;
use crate::parts::{
    read_body, read_levels, read_name, read_nodes, read_opener, read_parent, read_truth,
    read_version, read_win_name, read_wins,
};
use crate::row::Row;
use crate::values::{read_code, read_dst, read_val};
use ff_lattice::Lattice;
use ff_machine::{Entry, Kind, Pending, Shape};
use ff_name::by_word;
use ff_records::{AskRec, CookieRec, Variable, WinRec};
use ff_text::{Sexp, TextFault, read_items};
use ff_trace::{LineFault, read_address, read_domain, read_number, read_string};
use ff_value::{ActId, NodeId, PageId, WinId};
use std::alloc::Global;

/// The row that a line of at most `ff_text::MOST_BYTES` bytes says, without its newline. It may say
/// it in another spelling than that in which rows are printed. The refusals, the first of which
/// decides: the line isn't a text of items; it begins with the word of no kind of row; a wrong
/// number of parts; a part that isn't what it should be, the parts from left to right.
pub fn read_row(alloc: Global, line: &[u8], lattice: &Lattice) -> Result<Row, LineFault>
    requires { length line.now ≤ MOST_BYTES }
    ensures found { ReadsRow lattice.now line.now result ⊎ (result ≡ Err LineFault.NoMemory) }
    // What is printed for a row is read as the row.
    ensures only { (row : Row) → IsRow lattice.now row → FitsLine lattice.now row
        → line.now ≡ row_text lattice.now row → Gives result (Ok row) }
{
    read_line(alloc, line, lattice)
}

fn read_line(alloc: Global, line: &[u8], lattice: &Lattice) -> Result<Row, LineFault>
    requires { length line.now ≤ MOST_BYTES }
    ensures { ReadsRow lattice.now line.now result ⊎ (result ≡ Err LineFault.NoMemory) }
{
    match read_items(alloc, line) {
        Ok(items) => read_row_items(alloc, items.as_slice(), lattice),
        Err(fault) => match fault {
            TextFault::NoMemory => Err(LineFault::NoMemory),
            _ => Err(LineFault::Text(fault)),
        },
    }
}

/// The row of a line's items.
fn read_row_items(alloc: Global, items: &[Sexp], lattice: &Lattice) -> Result<Row, LineFault>
    ensures { Gives result (row_in lattice.now items.now) }
{
    match items.split_first() {
        Some((first, parts)) => match row_kind_of(first) {
            Some(kind) => read_kind(alloc, kind, parts, lattice),
            None => Err(LineFault::Kind),
        },
        None => Err(LineFault::Kind),
    }
}

/// The kind of row that an item names, or `None` where it names none.
fn row_kind_of(item: &Sexp) -> Option<RowKind>
    ensures { result ≡ spec.row_kind_of item.now }
{
    match item {
        Sexp::Word(_, text) => by_word(text.as_bytes()),
        _ => None,
    }
}

fn read_kind(
    alloc: Global,
    kind: RowKind,
    parts: &[Sexp],
    lattice: &Lattice,
) -> Result<Row, LineFault>
    ensures { Gives result (row_of lattice.now kind parts.now) }
{
    match kind {
        RowKind::Head => read_head(parts),
        RowKind::Policy => read_policy(parts),
        RowKind::Class => Ok(Row::Class(read_levels(lattice, parts)?)),
        RowKind::Mass => read_mass(parts),
        RowKind::Act => read_act(parts),
        RowKind::Var => read_var(alloc, parts),
        RowKind::Node => Ok(Row::Node(read_shape(alloc, parts)?)),
        RowKind::On => read_on(alloc, parts),
        RowKind::Kids => Ok(Row::Kids(read_nodes(alloc, parts)?)),
        RowKind::Page => read_page(alloc, parts),
        RowKind::Ready => read_ready(alloc, parts),
        RowKind::Wait => read_wait(parts),
        RowKind::Win => read_win(parts),
        RowKind::Open => Ok(Row::Open(read_wins(alloc, parts)?)),
        RowKind::Cookie => read_cookie(alloc, parts),
        RowKind::Ask => read_ask(alloc, parts),
        RowKind::End => read_end(parts),
    }
}

/// `ffox-saved 1`.
fn read_head(parts: &[Sexp]) -> Result<Row, LineFault>
    ensures { Gives result (spec.head_row parts.now) }
{
    match parts {
        [version] => {
            read_version(version)?;
            Ok(Row::Head)
        }
        _ => Err(LineFault::Count),
    }
}

/// `policy STR`.
fn read_policy(parts: &[Sexp]) -> Result<Row, LineFault>
    ensures { Gives result (spec.policy_row parts.now) }
{
    match parts {
        [text] => Ok(Row::Policy(read_string(text)?)),
        _ => Err(LineFault::Count),
    }
}

/// `mass N`.
fn read_mass(parts: &[Sexp]) -> Result<Row, LineFault>
    ensures { Gives result (spec.mass_row parts.now) }
{
    match parts {
        [mass] => Ok(Row::Mass(u64::from(read_number(mass)?))),
        _ => Err(LineFault::Count),
    }
}

/// `act PARENT`.
fn read_act(parts: &[Sexp]) -> Result<Row, LineFault>
    ensures { Gives result (spec.act_row parts.now) }
{
    match parts {
        [parent] => Ok(Row::Act(read_parent(parent)?)),
        _ => Err(LineFault::Count),
    }
}

/// `var VAR VAL`.
fn read_var(alloc: Global, parts: &[Sexp]) -> Result<Row, LineFault>
    ensures { Gives result (spec.var_row parts.now) }
{
    match parts {
        [name, value] => Ok(Row::Var(Variable {
            name: read_name(alloc, name)?,
            value: read_val(alloc, value)?,
        })),
        _ => Err(LineFault::Count),
    }
}

/// The kind of a node, and what its kind has.
fn read_shape(alloc: Global, parts: &[Sexp]) -> Result<Shape, LineFault>
    ensures { Gives result (shape_in parts.now) }
{
    match parts.split_first() {
        Some((first, rest)) => match node_kind_of(first) {
            Some(kind) => read_shape_parts(alloc, kind, rest),
            None => Err(LineFault::Kind),
        },
        None => Err(LineFault::Count),
    }
}

/// The kind of node that an item names, or `None` where it names none.
#[tactic(auto, using(crate::proofs::NodeKinds::node_kind_is))]
fn node_kind_of(item: &Sexp) -> Option<Kind>
    ensures { result ≡ spec.node_kind_of item.now }
{
    match item {
        Sexp::Word(_, text) => by_word(text.as_bytes()),
        _ => None,
    }
}

fn read_shape_parts(alloc: Global, kind: Kind, parts: &[Sexp]) -> Result<Shape, LineFault>
    ensures { Gives result (shape_of kind parts.now) }
{
    match (kind, parts) {
        (Kind::Page, [page]) => Ok(Shape::Page(PageId(read_number(page)?))),
        (Kind::Text, [name, text]) => {
            Ok(Shape::Text(read_name(alloc, name)?, read_string(text)?))
        }
        (Kind::Link, [name, url, label]) => Ok(Shape::Link(
            read_name(alloc, name)?,
            read_address(alloc, url)?,
            read_string(label)?,
        )),
        (Kind::TextBox, [name, text]) => {
            Ok(Shape::TextBox(read_name(alloc, name)?, read_string(text)?))
        }
        (Kind::Button, [name, label]) => {
            Ok(Shape::Button(read_name(alloc, name)?, read_string(label)?))
        }
        (Kind::Script, [name, started, body]) => Ok(Shape::Script(
            read_name(alloc, name)?,
            read_truth(started)?,
            read_body(alloc, body)?,
        )),
        (Kind::Src, [name, started, url]) => Ok(Shape::Src(
            read_name(alloc, name)?,
            read_truth(started)?,
            read_address(alloc, url)?,
        )),
        (Kind::Div, [name]) => Ok(Shape::Div(read_name(alloc, name)?)),
        _ => Err(LineFault::Count),
    }
}

/// `on CODE`.
fn read_on(alloc: Global, parts: &[Sexp]) -> Result<Row, LineFault>
    ensures { Gives result (spec.on_row parts.now) }
{
    match parts {
        [code] => Ok(Row::On(read_code(alloc, code)?)),
        _ => Err(LineFault::Count),
    }
}

/// `page URL WIN ROOT ACT NEXT`.
fn read_page(alloc: Global, parts: &[Sexp]) -> Result<Row, LineFault>
    ensures { Gives result (spec.page_row parts.now) }
{
    match parts {
        [url, win, root, act, next] => Ok(Row::Page(
            read_address(alloc, url)?,
            WinId(read_number(win)?),
            NodeId(read_number(root)?),
            ActId(read_number(act)?),
            read_number(next)?,
        )),
        _ => Err(LineFault::Count),
    }
}

/// `ready EXPR`.
fn read_ready(alloc: Global, parts: &[Sexp]) -> Result<Row, LineFault>
    ensures { Gives result (spec.ready_row parts.now) }
{
    match parts {
        [body] => Ok(Row::Queued(Entry::Ready(read_body(alloc, body)?))),
        _ => Err(LineFault::Count),
    }
}

/// `wait SLOT`.
fn read_wait(parts: &[Sexp]) -> Result<Row, LineFault>
    ensures { Gives result (spec.wait_row parts.now) }
{
    match parts {
        [slot] => Ok(Row::Queued(Entry::Wait(read_number(slot)?))),
        _ => Err(LineFault::Count),
    }
}

/// `win PAGE OPENER WNAME`.
fn read_win(parts: &[Sexp]) -> Result<Row, LineFault>
    ensures { Gives result (spec.win_row parts.now) }
{
    match parts {
        [page, opener, name] => Ok(Row::Win(WinRec {
            page: PageId(read_number(page)?),
            opener: read_opener(opener)?,
            name: read_win_name(name)?,
        })),
        _ => Err(LineFault::Count),
    }
}

/// `cookie DOMAIN STR STR`.
fn read_cookie(alloc: Global, parts: &[Sexp]) -> Result<Row, LineFault>
    ensures { Gives result (spec.cookie_row parts.now) }
{
    match parts {
        [domain, key, value] => Ok(Row::Cookie(CookieRec {
            domain: read_domain(alloc, domain)?,
            key: read_string(key)?,
            value: read_string(value)?,
        })),
        _ => Err(LineFault::Count),
    }
}

/// `ask DOMAIN STR DST`.
fn read_ask(alloc: Global, parts: &[Sexp]) -> Result<Row, LineFault>
    ensures { Gives result (spec.ask_row parts.now) }
{
    match parts {
        [domain, uri, dst] => Ok(Row::Ask(AskRec {
            domain: read_domain(alloc, domain)?,
            pending: Pending {
                uri: read_string(uri)?,
                dst: read_dst(alloc, dst)?,
            },
        })),
        _ => Err(LineFault::Count),
    }
}

/// `end`.
fn read_end(parts: &[Sexp]) -> Result<Row, LineFault>
    ensures { Gives result (spec.end_row parts.now) }
{
    match parts {
        [] => Ok(Row::End),
        _ => Err(LineFault::Count),
    }
}
