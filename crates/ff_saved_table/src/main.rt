//! Gathers the rows of its input as the records of one browser's stores, and says whether stores
//! are made of them; or takes its lines as a saved text, and says of which pool it is one.
//!
//! Floor: beside. Nothing of the browser stands on it.
//!
//! - `# TEXT` begins a new case, of which nothing was read, and is printed.
//! - `under JSON` is the policy of the case; where there is none, it is the one that is built in.
//! - `many FIRST LAST ROW` is that row for each number of the range, with the number in the place
//!   of `%`.
//! - `stores` says whether stores are made of what was gathered, and forgets it. `rows` does the
//!   same, and prints the rows of the stores, each in its place and spelling.
//! - `| LINE` is a line of a text. `text` reads these lines as a saved text under the policy, says
//! what is wrong with them, or prints the text of the pool that it read, and forgets them. `spoil`
//! does the same for each text that comes of them where a line is left out, is there twice, changes
//! places with the next one, or has a blank more at its end.
//! - Any other line is a row. Where it is none, it is printed with what is wrong with it, and so
//!   where it belongs to nothing.
#![tactic(auto)]

ghost use Rattle.std.specs.Prelude.{◌≡◌, ◌<◌};

mod gathering;
mod printing;
mod spoiling;
mod table;
mod texts;

use anyhow::Result;
use std::marker::Brand;
use std::sync::ledger::Blank;

fn main(rt: HostRuntime) -> Result<()> {
    table::run::<Brand>(&rt, Blank::new(1))
}
