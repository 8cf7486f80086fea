//! Each text that differs from a saved one in one line.
use crate::texts::{joined, verdict_of};
use anyhow::Result;
use ff_contract::Steps;
use ff_name::NoMemory;
use ff_policy::Policy;
use std::alloc::Global;
use std::sync::ledger::Ledger;

/// How a line of a text is spoiled.
#[derive(Clone, Copy)]
enum Change {
    LeftOut,
    Twice,
    Exchanged,
    BlankMore,
}

/// Prints what is said of the text with each line spoiled in each way.
pub fn print_spoiled<C: Ledger>(
    rt: &HostRuntime,
    policy: &Policy,
    lines: &[String],
    copies: &mut Steps<C>,
) -> Result<()> {
    let alloc = rt.alloc();
    for place in 0..lines.len() {
        let left_out = verdict(alloc, policy, lines, place, Change::LeftOut, copies)?;
        let twice = verdict(alloc, policy, lines, place, Change::Twice, copies)?;
        let exchanged = verdict(alloc, policy, lines, place, Change::Exchanged, copies)?;
        let longer = verdict(alloc, policy, lines, place, Change::BlankMore, copies)?;
        println!(rt; "  line {place}: {left_out}, {twice}, {exchanged}, {longer}")?;
    }
    Ok(())
}

fn verdict<C: Ledger>(
    alloc: Global,
    policy: &Policy,
    lines: &[String],
    place: usize,
    how: Change,
    copies: &mut Steps<C>,
) -> Result<String, NoMemory> {
    let text = spoiled(alloc, lines, place, how)?;
    let mut again = Vec::new(alloc);
    verdict_of(alloc, policy, text.as_bytes(), &mut again, copies)
}

/// The lines with one of them spoiled.
fn spoiled(alloc: Global, lines: &[String], place: usize, how: Change) -> Result<String, NoMemory> {
    let (before, rest) = lines.split_at_checked(place).unwrap_or((lines, &[]));
    let mut text = joined(alloc, before)?;
    if let Some((line, after)) = rest.split_first() {
        put_spoiled(&mut text, line.as_str(), after, how)?;
        let left = left_of(after, how);
        text.push_str(joined(alloc, left)?.as_str())?;
    }
    Ok(text)
}

/// Appends a line as it is spoiled, and the next one where they change places.
fn put_spoiled(
    text: &mut String,
    line: &str,
    after: &[String],
    how: Change,
) -> Result<(), NoMemory> {
    match how {
        Change::LeftOut => Ok(()),
        Change::Twice => {
            put_line(text, line)?;
            put_line(text, line)
        }
        Change::Exchanged => {
            if let Some(next) = after.first() {
                put_line(text, next.as_str())?;
            }
            put_line(text, line)
        }
        Change::BlankMore => {
            text.push_str(line)?;
            put_line(text, " ")
        }
    }
}

/// The lines that follow what was appended.
fn left_of(after: &[String], how: Change) -> &[String] {
    match how {
        Change::Exchanged => match after.split_first() {
            Some((_, others)) => others,
            None => after,
        },
        _ => after,
    }
}

fn put_line(text: &mut String, line: &str) -> Result<(), NoMemory> {
    text.push_str(line)?;
    text.push('\n')
}
