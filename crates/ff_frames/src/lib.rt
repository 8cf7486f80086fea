//! The control stack of a script: a runtime expression that is reduced at its leftmost redex.
//!
//! Floor: one browser. It knows of no levels.
//!
//! Callers and clauses see the runtime expression alone. Inside, frames stand for what is around
//! the part at hand, and the values of their operands lie behind one another in one vector, those
//! of the outermost frame first. After each call the part at hand is the redex, or it is the value
//! that completes the redex with the innermost frame: then it is the last of that vector. So one
//! reduction looks at that part and that frame, and costs a bounded number of steps, whatever
//! stands around them:
//!
//! - `next` lends what the redex holds where it lies: the operands or arguments are the end of the
//!   vector of values. It copies nothing and takes no memory.
//! - `give`, `give_copy`, `keep`, `choose`, `local` and `enter` take off one frame at most with its
//! values, put one part, with one frame around it at most, and walk to the next redex. Where a
//! value is what is left of a frame, of a `let`, a `do` or a call, it stays where it lies; where a
//! `do` goes on to its next part, its frame does. The walk goes from an operand to the one after it
//! and down the leftmost parts of what was put, at most as deep as a body nests. A form that is
//! entered moves into its frame, a value stays where it was put, and a part of a form is a counted
//! reference more.
//! - Nothing that is put takes memory but where one of the two vectors is full: a `while`, `and` or
//! `or` whose test is at hand is a frame that stands for the `if` that it becomes, and a turn of a
//! loop one that stands for the `do` of the body and the loop. As the reduction says, each turn
//! leaves a `do` around the next: one frame without content, until the loop ends.
//! - A vector doubles when it is full. `fork` copies each frame and each value, and shares what
//! they hold.
//!
//! After want of memory a control is that of `null`, as a new one is.
#![tactic(auto)]

mod control;
mod frame;
mod hand;
mod operand;
mod redex;
mod row;
mod seek;
mod source;
mod stack;

pub use control::Control;
pub use ff_value::NoMemory;
pub use redex::Redex;
