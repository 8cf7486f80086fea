ghost use Rattle.std.specs.Prelude.{◌≡◌, ◌≢◌, ◌≤◌, [], ℕ, List};
ghost use Rattle.ff_confinement.specs.Laws.{IsProjection, IsSecure, IsPrecise};
ghost use Rattle.ff_session.specs.Levels.{levels, machine};
ghost use Rattle.ff_trace.specs.Lines.{IsInputOf};
ghost use Rattle.ff_session.specs.Claims.{IsAnswered};
ghost use Rattle.ff_status.specs.Words.{error_line};
ghost use Rattle.ff_policy.specs.Assignment.{IsAssignment};
ghost use Rattle.ff_run.specs.Words as spec;
ghost use Rattle.ff_run.specs.Words.{Asks, IsBuiltIn, IsByNoFile, MakesSteps, RunsNone, command_of};
ghost use Rattle.ff_run.specs.Names.{FetchedOrFailed, GivenFor, IsLater};
ghost use Rattle.ff_run.specs.Status.{IsEarly, IsUncopied};
ghost use Rattle.ff_run.specs.Claims.{OnMulti};
ghost use Rattle.ff_run.specs.Telling.{OnEach, OnEachAsGiven, OnMultiCutShort, Tells, TellsAsGiven};
ghost use Rattle.ff_run.specs.Run.{ComesTo, GoesOn, Performs, Reports, Suits, outside};

use crate::named::find;
use crate::policies::PolicyFile;
use crate::rules::RulesFile;
use crate::states::StateFile;
use crate::words::{Command, asked_by};
use ff_audit::audit;
use ff_contract::Steps;
use ff_core::Browser;
use ff_io::{Port, Shelf, Sink};
use ff_policy::Policy;
use ff_release::release;
use ff_resume::resume;
use ff_session::{USUAL_SLICE, walk_format, walk_multi, walk_plain};
use ff_status::Status;
use ff_travel::travel;
use ff_writing::{check, generate, upgrade};
use std::alloc::Global;
use std::sync::ledger::Ledger;

/// Obeys the command that the words are.
///
/// `multi POLICY` multi-executes the trace that the port gives, with one copy of the browser for
/// each level, and writes the lines that are let out. Levels that saw the same so far share their
/// copy. `multi POLICY SLICE` writes the same: copies with work make up to SLICE steps at a time,
/// from 1 to 4,294,967,295, and 1,000 where no number is given. `plain POLICY` runs one browser
/// over the trace, and writes all its lines. `fmt POLICY` writes each input of it in its canonical
/// form. These three write the text of the lines that were got before they read further.
/// `audit POLICY` runs both programs over the trace, and writes once reading has ended where their
/// lines first differ, for each level: `Leaks` where some level's lines do. `travel POLICY` carries
/// out commands in place of inputs, and writes what each `show` asks for before it reads further.
/// `check POLICY` reads no trace, and writes for each level which levels it sees; `upgrade POLICY`
/// reads none either, and writes the policy as version 2. `gen START N` multi-executes N inputs, at
/// most 100,000, that are drawn from START, below 2^64, under the built-in policy, and writes how
/// many lines and bytes each level has. `resume POLICY FROM` does as `multi` does, from the saved
/// state that FROM holds on, and writes after a good trace the saved state of where the copies then
/// stand. `release POLICY RULES` does as `multi` does, but lets a stated number of inputs pass to
/// lower levels. POLICY is the name of a file on the shelf, of which the first 65,537 bytes count,
/// or `-` for the built-in policy; RULES likewise, and `-` stands for none; of FROM the first
/// 4,294,967,296 bytes count, and `-` stands for new copies. Numbers are in canonical decimal.
/// Every other list of words is `Usage`.
///
/// `words` doesn't hold the program's name. Each status but `Done` and `Leaks` puts its one line on
/// the error sink; a fault of that sink changes no status. `turns` counts the turns of all
/// browsers, those of copies that are shared once, and `copies` the cells that they copy.
pub fn run<S: Shelf, P: Port, E: Sink, C: Ledger, L: Ledger>(
    alloc: Global,
    words: &[String],
    shelf: &mut S,
    port: &mut P,
    err: &mut E,
    copies: &mut Steps<C>,
    turns: &mut Steps<L>,
) -> Status
    // What the command of the words comes to, by the outside before and after it, and the status.
    ensures comes { (command : spec.Command) → Asks words.now command
        → ComesTo command (outside (S.told shelf.old) (P.told port.old) turns.old)
        (outside (S.told shelf.new) (P.told port.new) turns.new) result }
    ensures usage { Suits result words.now }

    // The headline of `multi`: each level's lines, the view of each level, and where precision
    // holds, for every policy.
    ensures projected { OnMulti words.now result (S.told shelf.old) (P.told port.old)
        (P.told port.new) (λ p is put. IsProjection (machine p) (levels p) is put) }
    ensures secure { OnMulti words.now result (S.told shelf.old) (P.told port.old)
        (P.told port.new) (λ p is put. IsSecure (machine p) (levels p) (IsInputOf p.order) is put) }
    ensures precise { OnMulti words.now result (S.told shelf.old) (P.told port.old)
        (P.told port.new) (λ p is put. IsPrecise (machine p) (levels p) is put) }

    // Where a write failed or memory was refused, what each level was told is a front of its view.
    ensures cut_short { OnMultiCutShort words.now result (S.told shelf.old) (P.told port.old)
        (P.told port.new) }

    // What the text of each command tells, under the policy of its name by the shelf's files; and
    // by what the shelf gave: where no files are told, as of the system's own shelf, its fetches
    // say from which bytes the policy, a saved state and rules are read.
    ensures tells { OnEach words.now result (S.told shelf.old) (P.told port.old)
        (P.told port.new) }
    ensures given { OnEachAsGiven words.now result (S.told shelf.old) (S.told shelf.new)
        (P.told port.old) (P.told port.new) }

    // What isn't touched. Where no browser runs or is made of a saved text, no cell is copied.
    ensures untouched { IsEarly result → (port.new ≡ port.old) × (turns.new ≡ turns.old) }
    ensures files { (S.told shelf.new).files ≡ (S.told shelf.old).files }
    ensures no_shelf { result ≡ Status.Usage → shelf.new ≡ shelf.old }
    ensures no_fetch { (command : spec.Command) → Asks words.now command
        → IsBuiltIn command → shelf.new ≡ shelf.old }
    ensures no_copies { IsUncopied result → copies.new ≡ copies.old }
    ensures uncopied { (command : spec.Command) → Asks words.now command
        → RunsNone command → copies.new ≡ copies.old }
    ensures copies { copies.old ≤ copies.new }

    // The line on the error sink.
    ensures error_line { Reports (E.told err.old) (E.told err.new) (error_line result) }
    ensures silent { error_line result ≡ [] → err.new ≡ err.old }
{
    let status = answer(alloc, words, shelf, port, copies, turns);
    status.report(err);
    status
}

/// Obeys the command that the words are. It stands apart for the prover alone: `run` says more of
/// its answer.
fn answer<S: Shelf, P: Port, C: Ledger, L: Ledger>(
    alloc: Global,
    words: &[String],
    shelf: &mut S,
    port: &mut P,
    copies: &mut Steps<C>,
    turns: &mut Steps<L>,
) -> Status
    ensures comes { (command : spec.Command) → Asks words.now command
        → ComesTo command (outside (S.told shelf.old) (P.told port.old) turns.old)
        (outside (S.told shelf.new) (P.told port.new) turns.new) result }
    ensures given { OnEachAsGiven words.now result (S.told shelf.old) (S.told shelf.new)
        (P.told port.old) (P.told port.new) }
    ensures usage { Suits result words.now }
    ensures untouched { IsEarly result → (port.new ≡ port.old) × (turns.new ≡ turns.old) }
    ensures files { (S.told shelf.new).files ≡ (S.told shelf.old).files }
    ensures no_shelf { result ≡ Status.Usage → shelf.new ≡ shelf.old }
    ensures no_fetch { (command : spec.Command) → Asks words.now command
        → IsBuiltIn command → shelf.new ≡ shelf.old }
    ensures no_copies { IsUncopied result → copies.new ≡ copies.old }
    ensures uncopied { (command : spec.Command) → Asks words.now command
        → RunsNone command → copies.new ≡ copies.old }
    ensures copies { copies.old ≤ copies.new }
{
    match asked_by(words) {
        Some(command) => obey(alloc, command, shelf, port, copies, turns),
        None => Status::Usage,
    }
}

/// Obeys a command under the policy that it names.
fn obey<S: Shelf, P: Port, C: Ledger, L: Ledger>(
    alloc: Global,
    command: Command<'_>,
    shelf: &mut S,
    port: &mut P,
    copies: &mut Steps<C>,
    turns: &mut Steps<L>,
) -> Status
    requires { MakesSteps (command_of command) }
    ensures comes { ComesTo (command_of command.entry)
        (outside (S.told shelf.old) (P.told port.old) turns.old)
        (outside (S.told shelf.new) (P.told port.new) turns.new) result }
    ensures given { IsAnswered result
        → TellsAsGiven (command_of command.entry) (S.told shelf.old) (S.told shelf.new)
        (P.told port.old) (P.told port.new) result }
    ensures command { result ≢ Status.Usage }
    ensures untouched { IsEarly result → (port.new ≡ port.old) × (turns.new ≡ turns.old) }
    ensures files { (S.told shelf.new).files ≡ (S.told shelf.old).files }
    ensures no_fetch { IsBuiltIn (command_of command.entry) → shelf.new ≡ shelf.old }
    ensures no_copies { IsUncopied result → copies.new ≡ copies.old }
    ensures uncopied { RunsNone (command_of command.entry) → copies.new ≡ copies.old }
    ensures copies { copies.old ≤ copies.new }
{
    match find(alloc, &PolicyFile, shelf, command.policy(), copies) {
        Ok(policy) => perform(alloc, command, &policy, shelf, port, copies, turns),
        Err(status) => status,
    }
}

/// Carries out a command under a policy.
fn perform<S: Shelf, P: Port, C: Ledger, L: Ledger>(
    alloc: Global,
    command: Command<'_>,
    policy: &Policy,
    shelf: &mut S,
    port: &mut P,
    copies: &mut Steps<C>,
    turns: &mut Steps<L>,
) -> Status
    requires { MakesSteps (command_of command) }
    ensures valid { IsAssignment policy.now }
    ensures performs { Performs (command_of command.entry) policy.now
        (outside (S.told shelf.old) (P.told port.old) turns.old)
        (outside (S.told shelf.new) (P.told port.new) turns.new) result }
    ensures goes_on { GoesOn (command_of command.entry) policy.now
        (outside (S.told shelf.old) (P.told port.old) turns.old)
        (outside (S.told shelf.new) (P.told port.new) turns.new) result }
    ensures given { IsAnswered result
        → Tells (λ X kind. GivenFor kind (S.told shelf.old) (S.told shelf.new))
        (command_of command.entry) policy.now (P.told port.old) (P.told port.new) result }
    ensures fetched { FetchedOrFailed (S.told shelf.old) (S.told shelf.new) result }
    ensures later { IsLater (S.told shelf.old) (S.told shelf.new) }
    ensures untouched { IsEarly result → (port.new ≡ port.old) × (turns.new ≡ turns.old) }
    ensures no_fetch { IsByNoFile (command_of command.entry) → shelf.new ≡ shelf.old }
    ensures no_copies { IsUncopied result → copies.new ≡ copies.old }
    ensures uncopied { RunsNone (command_of command.entry) → copies.new ≡ copies.old }
    ensures copies { copies.old ≤ copies.new }
{
    let lattice = policy.lattice();
    match command {
        Command::Check { .. } => check(alloc, lattice, port),
        Command::Upgrade { .. } => upgrade(alloc, policy, port),
        Command::Generate { start, inputs } => generate::<Browser, P, C, L>(
            alloc,
            policy,
            USUAL_SLICE,
            start,
            inputs,
            port,
            copies,
            turns,
        ),
        Command::Multi { slice, .. } => {
            walk_multi::<Browser, P, C, L>(alloc, policy, slice, port, copies, turns)
        }
        Command::Plain { .. } => walk_plain::<Browser, P, C, L>(alloc, policy, port, copies, turns),
        Command::Format { .. } => walk_format(alloc, lattice, port, copies, turns),
        Command::Audit { .. } => audit::<Browser, P, C, L>(alloc, policy, port, copies, turns),
        Command::Travel { .. } => travel::<Browser, P, C, L>(alloc, policy, port, copies, turns),
        Command::Resume { from, .. } => {
            match find(alloc, &StateFile { policy }, shelf, from, copies) {
                Ok(pool) => resume(alloc, policy, USUAL_SLICE, pool, port, copies, turns),
                Err(status) => status,
            }
        }
        Command::Release { rules, .. } => {
            match find(alloc, &RulesFile { policy }, shelf, rules, copies) {
                Ok(rules) => release::<Browser, P, C, L>(
                    alloc,
                    policy,
                    rules,
                    USUAL_SLICE,
                    port,
                    copies,
                    turns,
                ),
                Err(status) => status,
            }
        }
    }
}
