ghost use Rattle.std.specs.Prelude.{◌≡◌, ◌↔◌, ◌<◌, ◌++◌, ◌∷◌, [], List, ℕ, IfOk, OnOk, IsTrue, MatchOption, length, reverse};
ghost use Rattle.std.specs.List.{list_all};
ghost use Rattle.ff_text.specs.Bytes.{is_word_byte};

use crate::NoMemory;
use ff_name::Text;
use ff_shared::OwnedList;
use std::alloc::Global;
use std::marker::Model;
use std::mem;

/// A list that grows at its end.
#[derive(Drop)]
pub(crate) struct GrowingList<T> {
    items: Vec<T>,
}

impl<T> Model for GrowingList<T> {
    ghost use Rattle.std.specs.Prelude.{List};
    ghost use Rattle.std.specs.Coded.{coded_list};

    ghost Value = { List T };

    ghost coded = { coded_list T.code };

    ghost view = { λ row. row.items.items };
}

impl<T: Drop> GrowingList<T> {
    pub(crate) fn new(alloc: Global) -> GrowingList<T>
        ensures { result ≡ [] }
    {
        GrowingList {
            items: Vec::new(alloc),
        }
    }

    /// No items, in the room that those of a list had.
    pub(crate) fn in_room_of(list: OwnedList<T>) -> GrowingList<T>
        ensures { result ≡ [] }
    {
        let mut items = list.into_vec();
        items.clear();
        GrowingList { items }
    }

    pub(crate) fn is_empty(&self) -> bool
        ensures { IsTrue result ↔ (self.now ≡ []) }
    {
        self.items.is_empty()
    }

    pub(crate) fn push(&mut self, item: T) -> Result<(), NoMemory>
        ensures { OnOk result (self.new ≡ self.old ++ item ∷ []) }
    {
        self.items.push(item)?;
        Ok(())
    }

    /// Puts all of these bytes last, or none where memory is refused.
    pub(crate) fn extend(&mut self, run: &[T]) -> Result<(), NoMemory>
    where
        T: Copy,
        ensures { OnOk result (self.new ≡ self.old ++ run.now) }
    {
        self.items.extend_from_slice(run)
    }

    /// All the items, which leaves none.
    pub(crate) fn take(&mut self, alloc: Global) -> GrowingList<T>
        ensures taken { result ≡ self.old }
        ensures left { self.new ≡ [] }
    {
        mem::replace(self, GrowingList::new(alloc))
    }

    /// Leaves no items, and keeps the room for them.
    pub(crate) fn clear(&mut self)
        ensures { self.new ≡ [] }
    {
        self.items.clear();
    }

    pub(crate) fn as_slice(&self) -> &[T]
        ensures { result.now ≡ self.now }
    {
        self.items.as_slice()
    }

    /// The items as a list.
    pub(crate) fn list(self) -> OwnedList<T>
        ensures { result ≡ self }
    {
        OwnedList::from_vec(self.items)
    }
}

/// A stack, seen as the list of its items from the top.
#[derive(Drop)]
pub(crate) struct Stack<T> {
    items: Vec<T>,
}

impl<T> Model for Stack<T> {
    ghost use Rattle.std.specs.Prelude.{List, reverse};
    ghost use Rattle.std.specs.Coded.{coded_list};

    ghost Value = { List T };

    ghost coded = { coded_list T.code };

    ghost view = { λ stack. reverse stack.items.items };
}

impl<T: Drop> Stack<T> {
    pub(crate) fn new(alloc: Global) -> Stack<T>
        ensures { result ≡ [] }
    {
        Stack {
            items: Vec::new(alloc),
        }
    }

    pub(crate) fn len(&self) -> usize
        ensures { result ≡ length self.now }
    {
        self.items.len()
    }

    pub(crate) fn push(&mut self, item: T) -> Result<(), NoMemory>
        ensures { OnOk result (self.new ≡ item ∷ self.old) }
    {
        self.items.push(item)?;
        Ok(())
    }

    pub(crate) fn pop(&mut self) -> Option<T>
        ensures { MatchOption result ((self.old ≡ []) × (self.new ≡ []))
            (λ item. self.old ≡ item ∷ self.new) }
    {
        self.items.pop()
    }

    /// The topmost item, lent.
    pub(crate) fn top(&self) -> Option<&T>
        ensures { MatchOption result (self.now ≡ [])
            (λ item. (rest : List T) × (self.now ≡ item.now ∷ rest)) }
    {
        self.items.last()
    }
}

/// The bytes of a word so far.
#[derive(Drop)]
pub(crate) struct WordBytes {
    bytes: Vec<u8>,
}

impl Model for WordBytes {
    ghost use Rattle.std.specs.Prelude.{List, ℕ, IsTrue};
    ghost use Rattle.std.specs.List.{list_all};
    ghost use Rattle.ff_text.specs.Bytes.{is_word_byte};

    ghost Value = { List ℕ };

    ghost view = { λ word. word.bytes.items };

    ghost invariant = { λ word. IsTrue (list_all is_word_byte word.bytes.items) };
}

impl WordBytes {
    pub(crate) fn new(alloc: Global) -> WordBytes
        ensures { result ≡ [] }
    {
        WordBytes {
            bytes: Vec::new(alloc),
        }
    }

    pub(crate) fn is_empty(&self) -> bool
        ensures { IsTrue result ↔ (self.now ≡ []) }
    {
        self.bytes.is_empty()
    }

    pub(crate) fn push(&mut self, b: u8) -> Result<(), NoMemory>
        requires { IsTrue (is_word_byte b) }
        ensures { OnOk result (self.new ≡ self.old ++ b ∷ []) }
    {
        self.bytes.push(b)?;
        Ok(())
    }

    /// Puts all of these bytes last, or none where memory is refused.
    pub(crate) fn extend(&mut self, run: &[u8]) -> Result<(), NoMemory>
        requires { IsTrue (list_all is_word_byte run.now) }
        ensures { OnOk result (self.new ≡ self.old ++ run.now) }
    {
        self.bytes.extend_from_slice(run)
    }

    /// The word as a text, which leaves no bytes.
    pub(crate) fn take(&mut self, alloc: Global) -> Result<Text, NoMemory>
        ensures taken { IfOk result (λ text. text ≡ self.old) }
        ensures left { OnOk result (self.new ≡ []) }
    {
        let text = Text::of_utf8(alloc, &self.bytes)?;
        self.bytes.clear();
        Ok(text)
    }
}
