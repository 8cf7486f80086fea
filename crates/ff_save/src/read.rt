//! The pool of a saved text, read.
ghost use Rattle.std.specs.Prelude.{◌≡◌, ◌≢◌, ◌↔◌, ◌≤◌, Ok, Err, None, IfOk, IfErr, IsTrue};
ghost use Rattle.std.specs.Option.{option_map};
ghost use Rattle.std.specs.Str.{IsUtf8};
ghost use Rattle.ff_contract.specs.Answering.{Answers};
ghost use Rattle.ff_lattice.specs.Order.{size};
ghost use Rattle.ff_policy.specs.Printing.{printed};
ghost use Rattle.ff_pool.specs.Pooled.{Pooled};
ghost use Rattle.ff_pool.specs.Restored.{IsResting};
ghost use Rattle.ff_save.specs.Holding.{Gathers, held_by};
ghost use Rattle.ff_save.specs.Saved.{saved_recs, saved_text};
ghost use Rattle.ff_save.specs.Whole.{HasFault, IsOfOther, IsPoolOf, IsPrintedPolicy, IsSaved, TellsPolicy, policy_line};
ghost use Rattle.ff_saved_rows.specs.declared.fault.SavedFault.{SavedFault};

use crate::fail::SavedFail;
use crate::gathering::Gathering;
use crate::write::{policy_text, write_saved};
use ff_contract::Steps;
use ff_io::split_line;
use ff_name::{NoMemory, Text};
use ff_policy::Policy;
use ff_pool::Pool;
use ff_printing::Printer;
use ff_restorable::Restorable;
use ff_saved_rows::{LineFault, Row, SavedFault, read_row};
use ff_text::MOST_BYTES;
use std::alloc::{AllocError, Global};
use std::sync::ledger::Ledger;

/// The most bytes that a saved text may have, 2^32 - 1, for it to be read.
pub const MOST_SAVED_BYTES: u64 = 4_294_967_295;

/// The pool at rest whose saved text under the policy the bytes are, with no page touched. The
/// refusals, the first of which decides: the bytes begin as a saved text under a policy that is
/// printed otherwise; they are the saved text of no pool, or of one whose text is longer than
/// [`MOST_SAVED_BYTES`], has a line of more than `ff_text::MOST_BYTES` bytes, or one that nests too
/// deep to be read. `copies` counts cells that are copied, also where the bytes are refused.
pub fn read_saved<B: Restorable, C: Ledger>(
    alloc: Global,
    policy: &Policy,
    bytes: &[u8],
    copies: &mut Steps<C>,
) -> Result<Pool<B>, SavedFail>
    ensures found { IfOk result (IsSaved policy.now bytes.now) }
    ensures only { (pool : Pooled) → IsSaved policy.now bytes.now pool
        → Answers result (Ok pool) (Err SavedFail.NoMemory) }
    ensures fault { IfErr result (λ fail. (fault : SavedFault) → fail ≡ SavedFail.Fault fault
        → HasFault policy.now bytes.now fault) }
    ensures exact { (fault : SavedFault) → HasFault policy.now bytes.now fault
        → Answers result (Err (SavedFail.Fault fault)) (Err SavedFail.NoMemory) }
    ensures later { copies.old ≤ copies.new }
{
    let text = policy_text(alloc, policy)?;
    if is_of_other(alloc, policy, &text, bytes)? {
        return Err(SavedFail::Fault(SavedFault::OtherPolicy));
    }
    match read_pool(alloc, policy, bytes, copies)? {
        Some(pool) => Ok(pool),
        None => Err(SavedFail::Fault(SavedFault::NotSaved)),
    }
}

/// The pool whose saved text the bytes are, or `None` where they are that of none.
fn read_pool<B: Restorable, C: Ledger>(
    alloc: Global,
    policy: &Policy,
    bytes: &[u8],
    copies: &mut Steps<C>,
) -> Result<Option<Pool<B>>, NoMemory>
    requires utf8 { IsUtf8 (printed policy.now) }
    ensures value { IfOk result (IsPoolOf policy.now bytes.now) }
    ensures later { copies.old ≤ copies.new }
{
    if bytes.len() as u64 > MOST_SAVED_BYTES {
        return Ok(None);
    }
    let lattice = policy.lattice();
    let Some(gathering) = gather::<B, C>(alloc, policy, bytes, copies)? else {
        return Ok(None);
    };
    let Some(pool) = gathering.finish(lattice.size(), copies)? else {
        return Ok(None);
    };
    if is_text_of(alloc, policy, &pool, bytes)? {
        Ok(Some(pool))
    } else {
        Ok(None)
    }
}

/// The classes that the lines of a text tell, in whatever spelling, or `None` where they aren't
/// lines of a saved text.
fn gather<B: Restorable, C: Ledger>(
    alloc: Global,
    policy: &Policy,
    bytes: &[u8],
    copies: &mut Steps<C>,
) -> Result<Option<Gathering<B>>, NoMemory>
    ensures value { IfOk result (λ found. Gathers policy.now.order policy.now.fuel bytes.now
        (option_map (held_by B.state) found)) }
    ensures later { copies.old ≤ copies.new }
{
    let mut gathering = Gathering::<B>::new(alloc, policy.fuel());
    let mut rest = bytes;
    'lines: while !rest.is_empty() {
        let (line, more) = split_line(rest);
        if !gathering.add_line(line, policy.lattice(), copies)? {
            return Ok(None);
        }
        rest = more;
    }
    Ok(Some(gathering))
}

/// Whether these bytes are the saved text of the pool.
fn is_text_of<B: Restorable>(
    alloc: Global,
    policy: &Policy,
    pool: &Pool<B>,
    bytes: &[u8],
) -> Result<bool, NoMemory>
    requires { IsResting (size policy.now.order) policy.now.fuel pool.now }
    ensures { IfOk result (λ same. IsTrue same
        ↔ (bytes.now ≡ saved_text policy.now (saved_recs pool.now))) }
{
    let mut text = Vec::new(alloc);
    write_saved(alloc, policy, pool, &mut text)?;
    Ok(text.as_slice() == bytes)
}

/// Whether the bytes begin as a saved text does, under a policy that is printed otherwise.
fn is_of_other(alloc: Global, policy: &Policy, text: &Text, bytes: &[u8]) -> Result<bool, NoMemory>
    requires { text.now ≡ printed policy.now }
    ensures { IfOk result (λ other. IsTrue other ↔ IsOfOther policy.now bytes.now) }
{
    if bytes.is_empty() {
        return Ok(false);
    }
    let (first, rest) = split_line(bytes);
    if first != b"ffox-saved 1".as_slice() {
        return Ok(false);
    }
    if rest.is_empty() {
        return Ok(false);
    }
    let (second, _) = split_line(rest);
    match policy_of(alloc, policy, second)? {
        Some(other) => Ok(other != *text),
        None => Ok(false),
    }
}

/// The text of a policy, where the line is its row as it is printed.
fn policy_of(alloc: Global, policy: &Policy, line: &[u8]) -> Result<Option<Text>, NoMemory>
    ensures { IfOk result (TellsPolicy line.now) }
{
    if line.len() > MOST_BYTES {
        return Ok(None);
    }
    match read_row(alloc, line, policy.lattice()) {
        Ok(row) => policy_row(alloc, row, line),
        Err(fault) => no_policy(fault),
    }
}

/// The text of a policy's row, where the line is the row as it is printed.
fn policy_row(alloc: Global, row: Row, line: &[u8]) -> Result<Option<Text>, NoMemory>
    ensures { IfOk result (IsPrintedPolicy row line.now) }
{
    match row {
        Row::Policy(text) => {
            if is_policy_line(alloc, &text, line)? {
                Ok(Some(text))
            } else {
                Ok(None)
            }
        }
        _ => Ok(None),
    }
}

/// Whether the line is a policy's row as it is printed.
fn is_policy_line(alloc: Global, text: &Text, line: &[u8]) -> Result<bool, NoMemory>
    ensures { IfOk result (λ same. IsTrue same ↔ (line.now ≡ policy_line text.now)) }
{
    let mut printed = Vec::new(alloc);
    let mut printer = Printer::after(&mut printed)?;
    printer.bytes(b"policy");
    printer.string(text);
    printer.end(&mut printed)?;
    Ok(printed.as_slice() == line)
}

/// What is answered for a line that says no row: it is no policy's, or there was no memory.
fn no_policy(fault: LineFault) -> Result<Option<Text>, NoMemory>
    ensures { IfOk result (λ found. (found ≡ None) × (fault ≢ LineFault.NoMemory)) }
{
    match fault {
        LineFault::NoMemory => Err(AllocError),
        _ => Ok(None),
    }
}
