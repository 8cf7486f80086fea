//! The program `ffox`: it obeys the command that its words are, as `ff_run::run` says. A trace is
//! read from standard input, what is written goes to standard output, what is wrong to standard
//! error, and policies and rules are files of the working folder. How it ended is its exit status,
//! as `Status` says.
//!
//! Floor: commands. It decides neither what a browser does nor who may know.
#![tactic(auto)]

ghost use Rattle.std.specs.Prelude.{◌≡◌, ◌<◌, Some, [], ℕ, List};
ghost use Rattle.ff_run.specs.Words.{Asks, Command};
ghost use Rattle.ff_session.specs.Claims.{IsAnswered};
ghost use Rattle.ff_run.specs.System.{IsConfinedRun, TellsByFetches};

use ff_contract::Steps;
use ff_io::{DirShelf, Port, Shelf, StdErr, StdPort};
use ff_run::{Status, run};
use std::alloc::Global;
use std::env::{self, Env};
use std::fs::Files;
use std::io::{self, Eprint, Input, Print};
use std::marker::Brand;
use std::process::ExitCode;
use std::sync::ledger::{Blank, Ledger};

fn main(rt: HostRuntime) -> ExitCode {
    let status = match words(&rt) {
        Ok(words) => {
            start::<Brand, Brand, HostRuntime>(&rt, &words, Blank::new(1), Blank::new(1))
        }
        Err(_) => Status::NoMemory,
    };
    ExitCode::from(status.number())
}

/// The words after the program's name. It fails where the runtime doesn't give them, or memory is
/// refused.
fn words<R: Env + AllocGlobal>(rt: &R) -> io::Result<Vec<String>> {
    let mut words = Vec::new(rt.alloc());
    for word in env::args(rt)?.skip(1) {
        words.push(word)?;
    }
    Ok(words)
}

/// Runs the command that the words are over the standard streams and the working folder.
fn start<C: Ledger, L: Ledger, R: Input + Print + Eprint + Files + AllocGlobal>(
    rt: &R,
    words: &[String],
    copies: Blank,
    turns: Blank,
) -> Status
    requires copies_name { copies.name ≡ C.name }
    requires copies_parts { copies.parts ≡ C.parts }
    requires some_copies { 0 < copies.parts }
    requires turns_name { turns.name ≡ L.name }
    requires turns_parts { turns.parts ≡ L.parts }
    requires some_turns { 0 < turns.parts }
{
    let mut shelf = DirShelf::new(rt);
    let mut port = StdPort::new(rt);
    let mut err = StdErr::new(rt);
    let mut copied = Steps::<C>::new(copies);
    let mut made = Steps::<L>::new(turns);
    over_the_system(
        rt.alloc(),
        words,
        &mut shelf,
        &mut port,
        &mut err,
        &mut copied,
        &mut made,
    )
}

/// Runs the command that the words are over standard input and output, from which no piece passed
/// yet, and over the working folder, from which nothing was fetched yet. Of what they hand out and
/// take the headline of `multi` holds, under the policy that the bytes fetched spell; and what the
/// other commands tell, by the policy, the saved state and the rules that these bytes spell.
fn over_the_system<'a, R: Input + Print + Eprint + Files, C: Ledger, L: Ledger>(
    alloc: Global,
    words: &[String],
    shelf: &mut DirShelf<'a, R>,
    port: &mut StdPort<'a, R>,
    err: &mut StdErr<'a, R>,
    copies: &mut Steps<C>,
    turns: &mut Steps<L>,
) -> Status
    requires no_fetch { ⟦<DirShelf<'a, R> as Shelf>⟧.fetches shelf.old ≡ Some [] }
    requires no_piece { ⟦<StdPort<'a, R> as Port>⟧.log port.old ≡ Some [] }
    ensures confined { (name : List ℕ) (slice : ℕ) → Asks words.now (Command.multi name slice)
        → IsAnswered result → IsConfinedRun name (⟦<DirShelf<'a, R> as Shelf>⟧.fetches shelf.new)
        (⟦<StdPort<'a, R> as Port>⟧.log port.new) }
    ensures tells { (command : Command) → Asks words.now command → IsAnswered result
        → TellsByFetches command (⟦<DirShelf<'a, R> as Shelf>⟧.fetches shelf.new)
        (⟦<StdPort<'a, R> as Port>⟧.told port.old) (⟦<StdPort<'a, R> as Port>⟧.told port.new)
        result }
{
    run(alloc, words, shelf, port, err, copies, turns)
}
