ghost use Rattle.std.specs.Prelude.{◌≡◌, ◌<◌, ◌≤◌, ◌++◌, ◌∷◌, [], map, length, take, IfOk, OnErr};
ghost use Rattle.std.specs.List.{flat_map, join_with_byte};
ghost use Rattle.ff_contract.specs.Appending.{Appends, AppendsAll};
ghost use Rattle.ff_text.specs.declared.items.Sexp.TheVariants.{Str};
ghost use Rattle.ff_text.specs.Notation.{SpellsItems, span};
ghost use Rattle.ff_text.specs.Printed.{IsWellSpelled, blank_before, ReadsBack, quoted, spelled, spelled_byte};

use crate::NoMemory;
use crate::bytes::plain_front;
use crate::escaped::Escaped;
use crate::items::Sexp;
use ff_name::Text;

/// Appends the canonical spelling of an item. After `NoMemory` a front of it was appended.
pub fn print(item: &Sexp, out: &mut Vec<u8>) -> Result<(), NoMemory>
    ensures appends { Appends result out.old.items out.new.items (spelled item.now) }
    // What is printed is read back, in all but the places.
    ensures again { IsWellSpelled item.now → ReadsBack (spelled item.now) item.now }
{
    print_item(item, out)
}

#[cycle(print)]
fn print_item(item: &Sexp, out: &mut Vec<u8>) -> Result<(), NoMemory>
    ensures { Appends result out.old.items out.new.items (spelled item.now) }
{
    match item {
        Sexp::Word(_, text) => put_all(text.as_bytes(), out),
        Sexp::Str(_, text) => print_str(text.as_bytes(), out),
        Sexp::List(_, parts) => {
            put_all(b"(", out)?;
            print_parts(parts.as_slice(), out)?;
            put_all(b")", out)
        }
    }
}

/// Appends the items with a blank between each two.
#[cycle(print)]
fn print_parts(parts: &[Sexp], out: &mut Vec<u8>) -> Result<(), NoMemory>
    ensures { Appends result out.old.items out.new.items
        (join_with_byte 32 (map spelled parts.now)) }
{
    for (i, part) in parts.iter().enumerate() {
        put_blank(i, out)?;
        print_item(part, out)?;
    }
    Ok(())
}

/// Appends what stands before the item at this place: a blank, and nothing before the first.
fn put_blank(at: usize, out: &mut Vec<u8>) -> Result<(), NoMemory>
    ensures { AppendsAll result out.old.items out.new.items (blank_before at) }
{
    if at == 0 { Ok(()) } else { put_all(b" ", out) }
}

/// Appends a string with this value, in its canonical spelling. After `NoMemory` a front of it was
/// appended.
pub fn quote(text: &Text, out: &mut Vec<u8>) -> Result<(), NoMemory>
    ensures appends { Appends result out.old.items out.new.items (quoted text.now) }
    // What is printed is read back, and its places are known.
    ensures again { SpellsItems (quoted text.now)
        (Str (span 0 (length (quoted text.now))) text.now ∷ []) }
{
    print_str(text.as_bytes(), out)
}

fn print_str(value: &[u8], out: &mut Vec<u8>) -> Result<(), NoMemory>
    ensures { Appends result out.old.items out.new.items (quoted value.now) }
{
    put_all(b"\"", out)?;
    let mut left = value;
    while !left.is_empty() {
        let n = put_some(left, out)?;
        left = &left[n..];
    }
    put_all(b"\"", out)
}

/// Appends what stands for some bytes at the front of a string's value: those that stand for
/// themselves, or else for one byte. Answers how many.
fn put_some(left: &[u8], out: &mut Vec<u8>) -> Result<usize, NoMemory>
    requires { 0 < length left.now }
    ensures some { IfOk result (λ n. 0 < n) }
    ensures within { IfOk result (λ n. n ≤ length left.now) }
    ensures put { IfOk result (λ n. out.new.items
        ≡ out.old.items ++ flat_map spelled_byte (take n left.now)) }
    ensures refused { OnErr result (out.new.items ≡ out.old.items) }
{
    let n = plain_front(left);
    if n == 0 {
        put_byte(left[0], out)?;
        return Ok(1);
    }
    put_all(&left[..n], out)?;
    Ok(n)
}

/// Appends what stands for a byte of a string's value.
fn put_byte(b: u8, out: &mut Vec<u8>) -> Result<(), NoMemory>
    ensures { AppendsAll result out.old.items out.new.items (spelled_byte b) }
{
    put_all(Escaped::of(b).as_slice(), out)
}

fn put_all(bytes: &[u8], out: &mut Vec<u8>) -> Result<(), NoMemory>
    ensures { AppendsAll result out.old.items out.new.items bytes.now }
{
    out.extend_from_slice(bytes)
}
