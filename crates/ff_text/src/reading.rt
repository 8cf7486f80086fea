ghost use Rattle.std.specs.Prelude.{◌≡◌, ◌≤◌, ◌⊎◌, ◌∷◌, [], List, IfOk, IfErr, length};
ghost use Rattle.ff_contract.specs.Answering.{Answers};
ghost use Rattle.ff_text.specs.declared.items.Sexp.{Sexp};
ghost use Rattle.ff_text.specs.declared.items.TextFault.{TextFault};
ghost use Rattle.ff_text.specs.Faults.{FirstFault, SingleFault, from_of};
ghost use Rattle.ff_text.specs.Machine.{one_in, one_of, verdict};
ghost use Rattle.ff_text.specs.Notation.{SpellsItems};
ghost use Rattle.ff_text.specs.Printed.{AreWellSpelled, IsWellSpelled};

use crate::growing_list::GrowingList;
use crate::items::{Items, Sexp, TextFault};
use crate::reader::Reader;
use std::alloc::Global;

/// The most bytes that a text may have.
pub const MOST_BYTES: usize = 8_388_608;

/// Reads all items of a text. Its faults are those of the text, the first from the left, and never
/// `Empty`.
pub fn read_items(alloc: Global, bytes: &[u8]) -> Result<Items, TextFault>
    requires { length bytes.now ≤ MOST_BYTES }
    ensures found { IfOk result (SpellsItems bytes.now) }
    ensures well_spelled { IfOk result AreWellSpelled }
    ensures only { (items : List Sexp) → SpellsItems bytes.now items
        → Answers result (Ok items) (Err TextFault.NoMemory) }
    ensures fault { IfErr result (λ fault. (fault ≡ TextFault.NoMemory)
        ⊎ FirstFault bytes.now fault) }
    ensures exact { (fault : TextFault) → FirstFault bytes.now fault
        → Answers result (Err fault) (Err TextFault.NoMemory) }
{
    read_whole(alloc, GrowingList::new(alloc), bytes)
}

/// Reads all items of a text as `read_items` does, in the room of a list whose items go: who reads
/// many short texts, one after another, takes memory for their lists once.
pub fn read_items_in(alloc: Global, room: Items, bytes: &[u8]) -> Result<Items, TextFault>
    requires { length bytes.now ≤ MOST_BYTES }
    ensures found { IfOk result (SpellsItems bytes.now) }
    ensures well_spelled { IfOk result AreWellSpelled }
    ensures only { (items : List Sexp) → SpellsItems bytes.now items
        → Answers result (Ok items) (Err TextFault.NoMemory) }
    ensures fault { IfErr result (λ fault. (fault ≡ TextFault.NoMemory)
        ⊎ FirstFault bytes.now fault) }
    ensures exact { (fault : TextFault) → FirstFault bytes.now fault
        → Answers result (Err fault) (Err TextFault.NoMemory) }
{
    read_whole(alloc, GrowingList::in_room_of(room), bytes)
}

/// Reads a text that is one item. After the faults of the text come `Empty`, and `Extra` at the
/// second item.
pub fn read(alloc: Global, bytes: &[u8]) -> Result<Sexp, TextFault>
    requires { length bytes.now ≤ MOST_BYTES }
    ensures found { IfOk result (λ item. SpellsItems bytes.now (item ∷ [])) }
    ensures well_spelled { IfOk result IsWellSpelled }
    ensures only { (item : Sexp) → SpellsItems bytes.now (item ∷ [])
        → Answers result (Ok item) (Err TextFault.NoMemory) }
    ensures fault { IfErr result (λ fault. (fault ≡ TextFault.NoMemory)
        ⊎ SingleFault bytes.now fault) }
    ensures exact { (fault : TextFault) → SingleFault bytes.now fault
        → Answers result (Err fault) (Err TextFault.NoMemory) }
{
    read_single(alloc, bytes)
}

fn read_single(alloc: Global, bytes: &[u8]) -> Result<Sexp, TextFault>
    requires { length bytes.now ≤ MOST_BYTES }
    ensures { Answers result (one_in (verdict bytes.now)) (Err TextFault.NoMemory) }
{
    match read_whole(alloc, GrowingList::new(alloc), bytes) {
        Ok(items) => single(items),
        Err(fault) => Err(fault),
    }
}

/// The one item of a list.
fn single(items: Items) -> Result<Sexp, TextFault>
    ensures { Answers result (one_of items) (Err TextFault.NoMemory) }
{
    let mut items = items.into_vec();
    match items.as_slice() {
        [] => Err(TextFault::Empty),
        [_, second, ..] => Err(TextFault::Extra(place_of(second))),
        [_] => match items.pop() {
            Some(item) => Ok(item),
            None => unreachable!(),
        },
    }
}

fn place_of(item: &Sexp) -> u32
    ensures { result ≡ from_of item.now }
{
    match item {
        Sexp::Word(span, _) => span.from,
        Sexp::Str(span, _) => span.from,
        Sexp::List(span, _) => span.from,
    }
}

fn read_whole(alloc: Global, items: GrowingList<Sexp>, bytes: &[u8]) -> Result<Items, TextFault>
    requires bytes { length bytes.now ≤ MOST_BYTES }
    requires none { items ≡ [] }
    ensures { Answers result (verdict bytes.now) (Err TextFault.NoMemory) }
{
    let mut reader = Reader::new(alloc, items);
    let mut left = bytes;
    while !left.is_empty() {
        match reader.take_some(alloc, left) {
            Ok(n) => left = &left[n..],
            Err(fault) => return Err(fault),
        }
    }
    reader.end(alloc)
}
