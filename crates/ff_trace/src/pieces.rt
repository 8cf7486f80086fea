ghost use Rattle.ff_contract.specs.Appending.{Appends, AppendsAll};
ghost use Rattle.ff_text.specs.Printed.{blank_before, spelled};
ghost use Rattle.ff_trace.specs.Pieces.{part_item, part_items};
ghost use Rattle.ff_trace.specs.Printed.{joined};

use crate::NoMemory;
use ff_name::{Text, Url};
use ff_number::print_nat;
use ff_printing::{print_pairs, print_resp, print_shown};
use ff_text::quote;
use ff_value::{Pairs, Resp, Shown};

/// A part of a line, which is printed as one item.
#[derive(Clone, Copy)]
pub(crate) enum Part<'a> {
    /// A word, by its bytes.
    Word(&'a [u8]),
    Number(u32),
    Address(&'a Url),
    Str(&'a Text),
    Resp(&'a Resp),
    Shown(&'a Shown),
    Pairs(&'a Pairs),
}

/// Appends the parts with a blank between each two.
pub(crate) fn print_parts(parts: &[Part], out: &mut Vec<u8>) -> Result<(), NoMemory>
    ensures { Appends result out.old.items out.new.items (joined (part_items parts.now)) }
{
    for (i, part) in parts.iter().enumerate() {
        put_blank(i, out)?;
        print_part(part, out)?;
    }
    Ok(())
}

fn print_part(part: &Part, out: &mut Vec<u8>) -> Result<(), NoMemory>
    ensures { Appends result out.old.items out.new.items (spelled (part_item part.now)) }
{
    match part {
        Part::Word(word) => put_all(word, out),
        Part::Number(number) => print_nat(u64::from(*number), out),
        Part::Address(url) => url.print(out),
        Part::Str(text) => quote(text, out),
        Part::Resp(resp) => print_resp(resp, out),
        Part::Shown(shown) => print_shown(shown, out),
        Part::Pairs(pairs) => print_pairs(pairs, out),
    }
}

/// Appends what stands before the part at this place: a blank, and nothing before the first.
fn put_blank(at: usize, out: &mut Vec<u8>) -> Result<(), NoMemory>
    ensures { AppendsAll result out.old.items out.new.items (blank_before at) }
{
    if at == 0 { Ok(()) } else { put_all(b" ", out) }
}

/// Appends all of the bytes or none.
pub(crate) fn put_all(bytes: &[u8], out: &mut Vec<u8>) -> Result<(), NoMemory>
    ensures { AppendsAll result out.old.items out.new.items bytes.now }
{
    out.extend_from_slice(bytes)
}
