//! Functions, values, and what replies are for, as the parts of a row.
ghost use Rattle.std.specs.Prelude.{◌≡◌, Some, Ok};
ghost use Rattle.ff_saved_rows.specs.Reading as spec;
ghost use Rattle.ff_saved_rows.specs.Reading.{code_in, code_list, code_of, val_in, held_list, held_of, dst_in, dst_list, dst_of};
ghost use Rattle.ff_term.specs.Whole.{literal};
ghost use Rattle.ff_trace.specs.Lines.{Gives};
ghost use Rattle.ff_saved_rows.specs.declared.kinds.ListKind.TheVariants as list;

use crate::kinds::ListKind;
use crate::parts::{read_body, read_expr, read_params};
use ff_machine::Dst;
use ff_name::by_word;
use ff_text::Sexp;
use ff_trace::{LineFault, read_number};
use ff_tree::{Expr, Lit};
use ff_value::{ActId, Code, NodeId, PageId, Val, WinId};
use std::alloc::Global;

/// The kind of list that begins with this item.
fn kind_of(item: &Sexp) -> Option<ListKind>
    ensures { result ≡ spec.list_kind_of item.now }
{
    match item {
        Sexp::Word(_, text) => by_word(text.as_bytes()),
        _ => None,
    }
}

/// A function: `(code ACT (VAR*) EXPR)`.
pub(crate) fn read_code(alloc: Global, item: &Sexp) -> Result<Code, LineFault>
    ensures { Gives result (code_in item.now) }
{
    match item {
        Sexp::List(_, items) => read_code_list(alloc, items.as_slice()),
        _ => Err(LineFault::Kind),
    }
}

fn read_code_list(alloc: Global, items: &[Sexp]) -> Result<Code, LineFault>
    ensures { Gives result (code_list items.now) }
{
    match items.split_first() {
        Some((head, parts)) => match kind_of(head) {
            Some(ListKind::Code) => read_code_parts(alloc, parts),
            _ => Err(LineFault::Kind),
        },
        None => Err(LineFault::Kind),
    }
}

fn read_code_parts(alloc: Global, parts: &[Sexp]) -> Result<Code, LineFault>
    ensures { Gives result (code_of (Some list.Code) parts.now) }
{
    match parts {
        [act, params, body] => Ok(Code {
            env: ActId(read_number(act)?),
            params: read_params(alloc, params)?,
            body: read_body(alloc, body)?,
        }),
        _ => Err(LineFault::Kind),
    }
}

/// A value: a literal, a reference or a function.
pub(crate) fn read_val(alloc: Global, item: &Sexp) -> Result<Val, LineFault>
    ensures { Gives result (val_in item.now) }
{
    match item {
        Sexp::List(_, items) => read_held(alloc, items.as_slice()),
        _ => read_lit(alloc, item),
    }
}

/// The value of an expression that is a literal.
fn read_lit(alloc: Global, item: &Sexp) -> Result<Val, LineFault>
    ensures { Gives result (spec.lit_val (spec.body_in item.now)) }
{
    let expr = read_expr(alloc, item)?;
    match &expr {
        Expr::Lit(lit) => val_of(lit),
        _ => Err(LineFault::Kind),
    }
}

/// The value of a literal, which shares its text.
fn val_of(lit: &Lit) -> Result<Val, LineFault>
    ensures { Gives result (Ok (literal lit.now)) }
{
    match lit {
        Lit::Null => Ok(Val::Null),
        Lit::Bool(truth) => Ok(Val::Bool(*truth)),
        Lit::Num(number) => Ok(Val::Num(*number)),
        Lit::Str(text) => Ok(Val::Str(text.copy()?)),
    }
}

fn read_held(alloc: Global, items: &[Sexp]) -> Result<Val, LineFault>
    ensures { Gives result (held_list items.now) }
{
    match items.split_first() {
        Some((head, parts)) => match kind_of(head) {
            Some(kind) => read_held_parts(alloc, kind, parts),
            None => Err(LineFault::Kind),
        },
        None => Err(LineFault::Kind),
    }
}

fn read_held_parts(alloc: Global, kind: ListKind, parts: &[Sexp]) -> Result<Val, LineFault>
    ensures { Gives result (held_of (Some kind) parts.now) }
{
    match (kind, parts) {
        (ListKind::Win, [win]) => Ok(Val::Win(WinId(read_number(win)?))),
        (ListKind::Node, [node]) => Ok(Val::Node(NodeId(read_number(node)?))),
        (ListKind::Code, _) => Ok(Val::Code(read_code_parts(alloc, parts)?)),
        _ => Err(LineFault::Kind),
    }
}

/// What a reply is for: `(win N)`, `(slot PAGE N)` or `(call PAGE CODE)`.
pub(crate) fn read_dst(alloc: Global, item: &Sexp) -> Result<Dst, LineFault>
    ensures { Gives result (dst_in item.now) }
{
    match item {
        Sexp::List(_, items) => read_dst_list(alloc, items.as_slice()),
        _ => Err(LineFault::Kind),
    }
}

fn read_dst_list(alloc: Global, items: &[Sexp]) -> Result<Dst, LineFault>
    ensures { Gives result (dst_list items.now) }
{
    match items.split_first() {
        Some((head, parts)) => match kind_of(head) {
            Some(kind) => read_dst_parts(alloc, kind, parts),
            None => Err(LineFault::Kind),
        },
        None => Err(LineFault::Kind),
    }
}

fn read_dst_parts(alloc: Global, kind: ListKind, parts: &[Sexp]) -> Result<Dst, LineFault>
    ensures { Gives result (dst_of (Some kind) parts.now) }
{
    match (kind, parts) {
        (ListKind::Win, [win]) => Ok(Dst::Window(WinId(read_number(win)?))),
        (ListKind::Slot, [page, slot]) => Ok(Dst::Slot(
            PageId(read_number(page)?),
            read_number(slot)?,
        )),
        (ListKind::Call, [page, code]) => Ok(Dst::Call(
            PageId(read_number(page)?),
            read_code(alloc, code)?,
        )),
        _ => Err(LineFault::Kind),
    }
}
