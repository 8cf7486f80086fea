//! What an audit finds at a level.
ghost use Rattle.std.specs.Prelude.{◌≡◌, ◌++◌, OnOk, codes};
ghost use Rattle.ff_audit.specs.Verdicts.{count_text, line_text, side_text, verdict_text};

use ff_name::{NoMemory, Text};
use ff_number::print_nat;

/// What an audit finds at a level.
#[derive(Debug, PartialEq, Eq, Drop)]
pub enum Verdict {
    /// Both programs put the same lines, and so many.
    Clean(u64),
    /// The line of this number, from 1, is the first that differs: that of the plain program, and
    /// that of the multi-executed one. At most one of them isn't there. A line is without its
    /// newline.
    Differs(u64, Option<Text>, Option<Text>),
}

/// Appends what is found at the level of this name.
pub(crate) fn print_verdict(
    name: &[u8],
    verdict: &Verdict,
    out: &mut Vec<u8>,
) -> Result<(), NoMemory>
    ensures { OnOk result (out.new.items ≡ out.old.items ++ verdict_text name.now verdict.now) }
{
    match verdict {
        Verdict::Clean(lines) => print_count(name, b" clean ", *lines, out),
        Verdict::Differs(place, plain, multi) => {
            print_difference(name, *place, plain, multi, out)
        }
    }
}

/// Appends the place of the first difference, and both lines.
fn print_difference(
    name: &[u8],
    place: u64,
    plain: &Option<Text>,
    multi: &Option<Text>,
    out: &mut Vec<u8>,
) -> Result<(), NoMemory>
    ensures { OnOk result (out.new.items ≡ out.old.items
        ++ (count_text name.now (codes " differs at ") place
        ++ (side_text (codes "plain ") plain.now ++ side_text (codes "multi ") multi.now))) }
{
    print_count(name, b" differs at ", place, out)?;
    print_side(b"plain ", plain, out)?;
    print_side(b"multi ", multi, out)
}

/// Appends a number after a name and words, as a line.
fn print_count(name: &[u8], words: &[u8], n: u64, out: &mut Vec<u8>) -> Result<(), NoMemory>
    ensures { OnOk result (out.new.items ≡ out.old.items ++ count_text name.now words.now n) }
{
    out.extend_from_slice(name)?;
    out.extend_from_slice(words)?;
    print_nat(n, out)?;
    out.extend_from_slice(b"\n")
}

/// Appends a line, or `none` where it isn't there, after a label.
fn print_side(label: &[u8], line: &Option<Text>, out: &mut Vec<u8>) -> Result<(), NoMemory>
    ensures { OnOk result (out.new.items ≡ out.old.items ++ side_text label.now line.now) }
{
    out.extend_from_slice(label)?;
    print_line(line, out)?;
    out.extend_from_slice(b"\n")
}

/// Appends a line, or `none` where it isn't there.
fn print_line(line: &Option<Text>, out: &mut Vec<u8>) -> Result<(), NoMemory>
    ensures { OnOk result (out.new.items ≡ out.old.items ++ line_text line.now) }
{
    match line {
        Some(line) => out.extend_from_slice(line.as_bytes()),
        None => out.extend_from_slice(b"none"),
    }
}
