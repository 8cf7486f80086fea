ghost use Rattle.std.specs.Prelude.{◌≡◌, ◌<◌, ◌↔◌, [], IsTrue, IfOk, OnSome, length, slice_get};
ghost use Rattle.std.specs.Option.{option_copied};
ghost use Rattle.std.specs.Cmp.Lexicographic.{pointwise, lists_equiv, lists_per};

use crate::NoMemory;
use std::alloc::{AllocError, Global};
use std::cmp::{Eq, PartialEq};
use std::marker::Model;
use std::rc::Rc;

/// A list that its copies share: contracts see the list.
#[derive(Debug, Drop)]
pub struct SharedList<T> {
    items: Rc<Vec<T>>,
}

impl<T> Model for SharedList<T> {
    ghost use Rattle.std.specs.Prelude.{List};
    ghost use Rattle.std.specs.Coded.{coded_list};

    ghost Value = { List T };

    ghost coded = { coded_list T.code };

    ghost view = { λ it. it.items.value.items };
}

impl<T> SharedList<T> {
    /// The items, lent in their order.
    pub fn as_slice(&self) -> &[T]
        ensures { result.now ≡ self.now }
    {
        self.items.as_slice()
    }

    /// How many items there are.
    pub fn len(&self) -> usize
        ensures { result ≡ length self.now }
    {
        self.items.len()
    }

    /// Whether there is no item.
    pub fn is_empty(&self) -> bool
        ensures { IsTrue result ↔ (self.now ≡ []) }
    {
        self.items.is_empty()
    }

    /// The item at a place that counts from 0, or `None` past the last.
    pub fn get(&self, at: usize) -> Option<&T>
        ensures value { option_copied result ≡ slice_get self.now at }
        ensures within { OnSome result (at < length self.now) }
    {
        self.items.get(at)
    }
}

impl<T: Drop> SharedList<T> {
    /// The list of a vector's items.
    pub fn from_vec(alloc: Global, items: Vec<T>) -> Result<SharedList<T>, NoMemory>
        ensures { IfOk result (λ it. it ≡ items.items) }
    {
        match Rc::new(alloc, items) {
            Ok(items) => Ok(SharedList { items }),
            Err(_refused) => Err(AllocError),
        }
    }

    /// An equal list that shares the items. Its one refusal is a count of owners that is full.
    pub fn copy(&self) -> Result<SharedList<T>, NoMemory>
        ensures { IfOk result (λ it. it ≡ self.now) }
    {
        Ok(SharedList {
            items: self.items.clone()?,
        })
    }
}

impl<T: PartialEq> PartialEq for SharedList<T> {
    ghost eq = { pointwise T.eq };

    ghost laws = { lists_per T.laws };

    fn eq(&self, other: &SharedList<T>) -> bool {
        *self.as_slice() == *other.as_slice()
    }
}

impl<T: Eq> Eq for SharedList<T> {
    ghost laws = { lists_equiv T.Eq.laws };
}
