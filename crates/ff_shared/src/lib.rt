//! Containers that may stand inside a type that holds itself. Their content never changes.
//!
//! Floor: ground. It knows no browser, and not what a word means.
//!
//! A clause sees a `Shared<T>` as the `T`, and a `SharedList<T>` or an `OwnedList<T>` as a list of
//! `T`, wherever they stand: alone, in a field or inside a type that holds itself. So two values
//! are equal where their content is, whoever else shares it. The copies of a `Shared` and of a
//! `SharedList` share their content: a copy takes a reference to the same content, no memory and no
//! time that depends on the content. An `OwnedList` has one owner, is not copied, and is made of a
//! vector and given back as one without taking memory.
#![tactic(auto)]

mod list;
mod owned;
mod single;

pub use list::SharedList;
pub use owned::OwnedList;
pub use single::Shared;
use std::alloc::AllocError;

/// Want of memory, or a count of owners that is full.
pub type NoMemory = AllocError;
