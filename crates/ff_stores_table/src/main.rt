//! Obeys the lines of its input, each of which is one call on the stores of its case, and prints
//! each line and what the call answered. A text `*N` is N times the letter `a`, and `*0` the empty
//! one.
//!
//! Floor: beside. Nothing of the browser stands on it.
//!
//! - `# TEXT` begins a new case, with new stores, and `## TEXT` is a heading inside a case.
//! - `each R S LINE` is that line for each pair of a number of the range R and one of S, with these
//!   in the places of `%` and `&`. The last answer is printed. A range is `FIRST..LAST`, or one
//!   number.
//! - `fork` keeps a fork of the stores in place of the one before. `swap` goes on with the fork,
//!   and keeps the stores in its place.
//!
//! Cookies, and pending requests:
//!
//! - `cookie put DOMAIN KEY VALUE`, `cookie get DOMAIN KEY` and `cookie delete DOMAIN KEY` set a
//!   cookie, give its value and take it out; `cookie all DOMAIN` gives those of a domain.
//! - `request room DOMAIN` says whether there is room, and `request count DOMAIN` counts.
//!   `request ask DOMAIN TEXT FOR` asks where there is room; `request answer DOMAIN PLACE` takes
//!   one out. FOR is `window WINDOW`, `slot PAGE SLOT`, `call PAGE ACTIVATION BODY` for a function
//!   without parameters, or `hear PAGE ACTIVATION LETTERS BODY` for one with parameters.
//!   `request copy TEXT FOR` copies such a request.
//!
//! Windows:
//!
//! - `window open NAME OPENER ADDRESS`, where `-` is no opener, opens a window with a page. The
//!   root of a page has the page's number and 7. `window load WINDOW ADDRESS` shows another page
//!   there, and `window close WINDOW` closes it.
//! - `window at PLACE` and `window named NAME` give the open window at a place and the first one of
//!   a name. `window is WINDOW` and `window page PAGE` give all that can be read off a window and
//!   off a page.
//! - `window next` gives the numbers that come next, and whether there is room for a page and for a
//!   window; `window room` says the last of these.
//!
//! Variables, each of one letter:
//!
//! - `variable declare ACTIVATION LETTER NUMBER` and `variable assign ACTIVATION LETTER NUMBER`.
//! - `variable call ACTIVATION LETTER NUMBER` calls a function of one parameter, and
//!   `variable enter ACTIVATION` one without.
//! - `variable get ACTIVATION LETTER`, `variable all ACTIVATION`, which gives the letters that have
//!   a number, and `variable count`, which counts activations.
//!
//! Queues of scripts, of windows that only these lines see:
//!
//! - `queue open NAME` opens a window with a page. `queue close WINDOW`, `queue fork` and `queue
//!   swap` do as the lines above.
//! - `queue wait PAGE` and `queue push PAGE BODY` put a slot and a script at the end of a queue,
//!   `queue fill PAGE SLOT BODY` fills a slot, `queue pop PAGE` takes out the first script, and
//!   `queue ready` gives the page whose script may run.
//!
//! Records, and stores that are made of them:
//!
//! - `record cookie DOMAIN KEY VALUE`, `record ask DOMAIN TEXT FOR`, `record act PARENT` and its
//!   `record var NAME number NUMBER`, `.. text TEXT` or `.. function ACTIVATION LETTERS BODY`,
//!   `record page ADDRESS WINDOW ROOT ACTIVATION NEXT` and its `record ready BODY` and `record wait
//!   SLOT`, `record win PAGE OPENER NAME` and `record open WINDOW` note a record, where `-` is no
//!   parent, no opener and no name. `record restore` says which stores are made of those that were
//!   noted, and whether they have these records again, and forgets them.
//! - `record saved` says the same of the records of the stores of the case.
//!
//! Copies of records that no other line makes: `copy shape KIND NAME ..` and `copy entry ready
//! BODY` or `copy entry wait SLOT`.
#![tactic(auto)]

ghost use Rattle.std.specs.Prelude.{◌≡◌, ◌<◌};

mod cookies;
mod queues;
mod reading;
mod records;
mod requests;
mod restoring;
mod shown;
mod stores;
mod table;
mod variables;
mod windows;
mod words;

use anyhow::Result;
use std::marker::Brand;
use std::sync::ledger::Blank;

fn main(rt: HostRuntime) -> Result<()> {
    table::run::<Brand>(&rt, Blank::new(1))
}
