//! The lines of release rules.
ghost use Rattle.std.specs.Prelude.{◌≡◌, ◌≤◌, ℕ, Some, None, Err, IfOk, IfSome, MatchOption, length};
ghost use Rattle.ff_lattice.specs.Order.{Order, level_named};
ghost use Rattle.ff_text.specs.declared.reading.TheConstants.{MOST_BYTES};
ghost use Rattle.ff_trace.specs.Parts as parts;
ghost use Rattle.ff_rules.specs.Lines as spec;
ghost use Rattle.ff_rules.specs.Lines.{GivesRule, IsFound, rule_in};
ghost use Rattle.ff_route.specs.Offering.{IsRuleOf};

use crate::fault::{ReleaseFail, ReleaseFault};
use ff_lattice::Lattice;
use ff_route::Rule;
use ff_text::{Sexp, TextFault, read_items};
use ff_trace::{is_silent, kind_of, number_of};
use ff_value::Kind;
use std::alloc::Global;

/// The rule of the line of this number, or none for a line of blanks alone and for a comment.
pub(crate) fn read_line(
    alloc: Global,
    number: u32,
    line: &[u8],
    lattice: &Lattice,
) -> Result<Option<Rule>, ReleaseFail>
    requires { length line.now ≤ MOST_BYTES }
    ensures found { IsFound (GivesRule lattice.now number line.now) result }
    ensures within { IfOk result (λ answer. IfSome answer (IsRuleOf lattice.now)) }
{
    if is_silent(line) {
        return Ok(None);
    }
    match read_items(alloc, line) {
        Ok(items) => read_rule(number, items.as_slice(), lattice),
        Err(fault) => match fault {
            TextFault::NoMemory => Err(ReleaseFail::NoMemory),
            _ => Err(ReleaseFail::Fault(ReleaseFault::Text(number, fault))),
        },
    }
}

/// The rule of a line's items.
fn read_rule(number: u32, items: &[Sexp], lattice: &Lattice) -> Result<Option<Rule>, ReleaseFail>
    ensures found { IsFound (λ answer. answer ≡ rule_in lattice.now number items.now) result }
    ensures within { IfOk result (λ answer. IfSome answer (IsRuleOf lattice.now)) }
{
    match parts_of(items) {
        Some(parts) => match lattice.by_name(parts.name) {
            Some(level) => Ok(Some(Rule {
                kind: parts.kind,
                level,
                quota: parts.quota,
                whole: parts.whole,
            })),
            None => Err(ReleaseFail::Fault(ReleaseFault::UnknownLevel(number))),
        },
        None => Err(ReleaseFail::Fault(ReleaseFault::Shape(number))),
    }
}

/// The parts of a rule as they stand in its line.
#[derive(Clone, Copy, Drop)]
struct Parts<'a> {
    kind: Kind,
    name: &'a [u8],
    quota: u32,
    whole: bool,
}

/// The parts that a line's items are, or `None` where they are no such parts.
fn parts_of(items: &[Sexp]) -> Option<Parts<'_>>
    ensures { MatchOption result ((order : Order) (number : ℕ)
        → rule_in order number items.now ≡ Err (ReleaseFault.Shape number))
        (λ parts. (order : Order) (number : ℕ)
        → rule_in order number items.now ≡ spec.with_level number parts.kind parts.quota parts.whole
        (level_named order parts.name.now)) }
{
    match items {
        [kind, level, quota, form] => Some(Parts {
            kind: kind_of(kind)?,
            name: word_of(level)?,
            quota: quota_of(quota)?,
            whole: form_of(form)?,
        }),
        _ => None,
    }
}

/// The bytes of a word.
fn word_of(item: &Sexp) -> Option<&[u8]>
    ensures { MatchOption result (spec.part_in Some item.now ≡ None)
        (λ word. spec.part_in Some item.now ≡ Some word.now) }
{
    match item {
        Sexp::Word(_, text) => Some(text.as_bytes()),
        _ => None,
    }
}

/// The number below 2^32 that a word spells.
fn quota_of(item: &Sexp) -> Option<u32>
    ensures { result ≡ spec.part_in parts.number_of item.now }
{
    match item {
        Sexp::Word(_, text) => number_of(text.as_bytes()),
        _ => None,
    }
}

/// Whether a form says that inputs pass whole.
fn form_of(item: &Sexp) -> Option<bool>
    ensures { result ≡ spec.part_in spec.form_named item.now }
{
    match item {
        Sexp::Word(_, text) => form_named(text.as_bytes()),
        _ => None,
    }
}

fn form_named(bytes: &[u8]) -> Option<bool>
    ensures { result ≡ spec.form_named bytes.now }
{
    match bytes {
        b"whole" => Some(true),
        b"masked" => Some(false),
        _ => None,
    }
}
