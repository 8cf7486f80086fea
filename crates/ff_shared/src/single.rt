ghost use Rattle.std.specs.Prelude.{◌≡◌, IfOk};

use crate::NoMemory;
use std::alloc::{AllocError, Global};
use std::cmp::{Eq, PartialEq};
use std::marker::Model;
use std::rc::Rc;

/// One value that its copies share: contracts see the value.
#[derive(Debug, Drop)]
pub struct Shared<T> {
    inner: Rc<T>,
}

impl<T> Model for Shared<T> {
    ghost Value = { T };

    ghost coded = { T.code };

    ghost view = { λ s. s.inner.value };
}

impl<T> Shared<T> {
    /// The value, lent.
    pub fn get(&self) -> &T
        ensures { result.now ≡ self.now }
    {
        &self.inner
    }
}

impl<T: Drop> Shared<T> {
    /// Puts `value` where copies can share it.
    pub fn new(alloc: Global, value: T) -> Result<Shared<T>, NoMemory>
        ensures { IfOk result (λ s. s ≡ value) }
    {
        match Rc::new(alloc, value) {
            Ok(inner) => Ok(Shared { inner }),
            Err(_refused) => Err(AllocError),
        }
    }

    /// An equal value that shares the content. Its one refusal is a count of owners that is full.
    pub fn copy(&self) -> Result<Shared<T>, NoMemory>
        ensures { IfOk result (λ s. s ≡ self.now) }
    {
        Ok(Shared {
            inner: self.inner.clone()?,
        })
    }
}

impl<T: PartialEq> PartialEq for Shared<T> {
    ghost eq = { T.eq };

    ghost laws = { T.laws };

    fn eq(&self, other: &Shared<T>) -> bool {
        *self.get() == *other.get()
    }
}

impl<T: Eq> Eq for Shared<T> {
    ghost laws = { T.Eq.laws };
}
