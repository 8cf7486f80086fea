//! An audit under the built-in policy, call by call: what is found at each level, whether something
//! leaks, the report, and whether the audit is spent.
ghost use Rattle.std.specs.Prelude.{◌≡◌, ◌<◌, false, OnOk};

use crate::counting::input_of;
use ff_audit::{Auditor, Verdict};
use ff_contract::Steps;
use ff_core::Browser;
use ff_name::{Level, NoMemory, Text};
use ff_policy::Policy;
use std::alloc::Global;
use std::marker::Brand;
use std::sync::ledger::{Blank, Ledger};
use std::{io, str};

/// What an audit has found.
#[derive(Drop)]
struct Findings {
    verdicts: Vec<Verdict>,
    leaks: bool,
    report: Vec<u8>,
    spent: bool,
}

/// Both programs take the input of a line, if it holds one.
fn hear<C: Ledger, L: Ledger>(
    alloc: Global,
    auditor: &mut Auditor<Browser>,
    line: &str,
    copies: &mut Steps<C>,
    turns: &mut Steps<L>,
) -> Result<(), NoMemory>
    requires { auditor.old.spent ≡ false }
    ensures { OnOk result (auditor.new.spent ≡ false) }
{
    match input_of(alloc, auditor.policy(), line)? {
        Some(input) => auditor.feed(&input, copies, turns),
        None => Ok(()),
    }
}

/// What is found at each level in order.
fn verdicts_of(alloc: Global, auditor: &Auditor<Browser>) -> Result<Vec<Verdict>, NoMemory>
    requires { auditor.now.spent ≡ false }
{
    let mut verdicts = Vec::new(alloc);
    for number in 0..auditor.policy().lattice().size() {
        verdicts.push(auditor.verdict(Level(number))?)?;
    }
    Ok(verdicts)
}

/// Both programs take the inputs of the lines.
fn hear_all<C: Ledger, L: Ledger>(
    alloc: Global,
    auditor: &mut Auditor<Browser>,
    lines: &[String],
    copies: &mut Steps<C>,
    turns: &mut Steps<L>,
) -> Result<(), NoMemory>
    requires { auditor.old.spent ≡ false }
    ensures { OnOk result (auditor.new.spent ≡ false) }
{
    for line in lines {
        hear(alloc, auditor, line.as_str(), copies, turns)?;
    }
    Ok(())
}

/// What an audit has found.
fn found(alloc: Global, auditor: &Auditor<Browser>) -> Result<Findings, NoMemory>
    requires { auditor.now.spent ≡ false }
{
    let mut report = Vec::new(alloc);
    auditor.report(&mut report)?;
    Ok(Findings {
        verdicts: verdicts_of(alloc, auditor)?,
        leaks: auditor.leaks(),
        report,
        spent: auditor.spent(),
    })
}

/// Audits the lines.
fn audit<C: Ledger, L: Ledger>(
    alloc: Global,
    lines: &[String],
    copies: Blank,
    turns: Blank,
) -> Result<Findings, NoMemory>
    requires copies_name { copies.name ≡ C.name }
    requires copies_parts { copies.parts ≡ C.parts }
    requires copies_some { 0 < copies.parts }
    requires turns_name { turns.name ≡ L.name }
    requires turns_parts { turns.parts ≡ L.parts }
    requires turns_some { 0 < turns.parts }
{
    let mut copies = Steps::<C>::new(copies);
    let mut turns = Steps::<L>::new(turns);
    let mut auditor = Auditor::<Browser>::new(alloc, Policy::builtin(alloc)?)?;
    hear_all(alloc, &mut auditor, lines, &mut copies, &mut turns)?;
    found(alloc, &auditor)
}

/// A line that one of the programs puts, or none.
fn line_of(line: &Option<Text>) -> &str {
    match line {
        Some(line) => line.as_str(),
        None => "none",
    }
}

/// Prints what is found.
pub fn show(rt: &HostRuntime, lines: &[String]) -> io::Result<()> {
    let found = audit::<Brand, Brand>(rt.alloc(), lines, Blank::new(1), Blank::new(1));
    let Ok(found) = found else {
        return println!(rt; "no memory");
    };
    for verdict in found.verdicts.iter() {
        match verdict {
            Verdict::Clean(lines) => println!(rt; "clean: {lines}")?,
            Verdict::Differs(place, plain, multi) => {
                let (plain, multi) = (line_of(plain), line_of(multi));
                println!(rt; "differs at {place}: {plain} / {multi}")?;
            }
        }
    }
    println!(rt; "leaks {}, spent {}", found.leaks, found.spent)?;
    match str::from_utf8(found.report.as_slice()) {
        Ok(report) => print!(rt; "{report}"),
        Err(_) => println!(rt; "no text"),
    }
}
