ghost use Rattle.std.specs.Prelude.{◌≡◌, length};
ghost use Rattle.std.specs.Cmp.Lexicographic.{pointwise, lists_equiv, lists_per};

use std::cmp::{Eq, PartialEq};
use std::marker::Model;

/// A list with one owner: contracts see the list.
#[derive(Debug, Drop)]
pub struct OwnedList<T> {
    items: Vec<T>,
}

impl<T> Model for OwnedList<T> {
    ghost use Rattle.std.specs.Prelude.{List};
    ghost use Rattle.std.specs.Coded.{coded_list};

    ghost Value = { List T };

    ghost coded = { coded_list T.code };

    ghost view = { λ it. it.items.items };
}

impl<T> OwnedList<T> {
    /// The items, lent in their order.
    pub fn as_slice(&self) -> &[T]
        ensures { result.now ≡ self.now }
    {
        self.items.as_slice()
    }

    /// How many items there are.
    pub fn len(&self) -> usize
        ensures { result ≡ length self.now }
    {
        self.items.len()
    }
}

impl<T: Drop> OwnedList<T> {
    /// The list of a vector's items.
    pub fn from_vec(items: Vec<T>) -> OwnedList<T>
        ensures { result ≡ items.items }
    {
        OwnedList { items }
    }

    /// The items as a vector.
    pub fn into_vec(self) -> Vec<T>
        ensures { result.items ≡ self }
    {
        self.items
    }
}

impl<T: PartialEq> PartialEq for OwnedList<T> {
    ghost eq = { pointwise T.eq };

    ghost laws = { lists_per T.laws };

    fn eq(&self, other: &OwnedList<T>) -> bool {
        *self.as_slice() == *other.as_slice()
    }
}

impl<T: Eq> Eq for OwnedList<T> {
    ghost laws = { lists_equiv T.Eq.laws };
}
