ghost use Rattle.std.specs.Prelude.{◌≡◌, IfOk};

use crate::source::Source;
use ff_tree::Exprs;
use ff_value::{ActId, NoMemory, Val};

/// What stands around the part at hand. Its values lie in the [`Hand`](crate::hand::Hand).
#[derive(Drop)]
pub(crate) enum Head {
    /// A form, and how many of its first operands are values. A `while`, `and` or `or` stands for
    /// the `if` that it becomes, with the part at hand for its test.
    Part(Source, usize),
    /// A `do`: its parts, and the place of the next.
    Do(Exprs, usize),
    /// A turn of a loop: a `do` of the part at hand and of the loop.
    Loop(Source),
    /// A `do` of the part at hand alone.
    Last,
    /// A call, and the activation outside of it.
    Inside(ActId),
}

/// The part at hand.
#[derive(Drop)]
pub(crate) enum Focus {
    Value(Val),
    Part(Source),
}

impl Head {
    /// An equal frame.
    pub(crate) fn copy(&self) -> Result<Head, NoMemory>
        ensures { IfOk result (λ h. h ≡ self.now) }
    {
        match self {
            Head::Part(form, held) => Ok(Head::Part(form.copy()?, *held)),
            Head::Do(parts, at) => Ok(Head::Do(parts.copy()?, *at)),
            Head::Loop(again) => Ok(Head::Loop(again.copy()?)),
            Head::Last => Ok(Head::Last),
            Head::Inside(outer) => Ok(Head::Inside(*outer)),
        }
    }
}
