//! Variables of activations, as the windows keep them.

use crate::reading::{activation, of_letter, parted, variable, whole};
use crate::words::{ended, refused};
use anyhow::{Result, bail};
use ff_contract::Steps;
use ff_operators::Fail;
use ff_value::{ActId, Name, Names, NoMemory, Val};
use ff_windows::Windows;
use std::alloc::Global;
use std::sync::ledger::Ledger;

/// What a line gives.
pub fn take<C: Ledger>(
    alloc: Global,
    windows: &mut Windows,
    line: &str,
    copies: &mut Steps<C>,
) -> Result<String> {
    let (word, rest) = parted(line);
    match word {
        "get" => get(alloc, windows, rest),
        "all" => all(alloc, windows, rest),
        "count" => Ok(format!(in alloc; "{}", windows.next_act().0)?),
        "enter" => enter(alloc, windows, rest, copies),
        "call" => call(alloc, windows, rest, copies),
        "declare" => declare(alloc, windows, rest, copies),
        "assign" => assign(alloc, windows, rest, copies),
        _ => bail!("no line of variables: {word}"),
    }
}

fn declare<C: Ledger>(
    alloc: Global,
    windows: &mut Windows,
    rest: &str,
    copies: &mut Steps<C>,
) -> Result<String> {
    let (a, rest) = parted(rest);
    let (x, n) = parted(rest);
    let a = activation(windows, a)?;
    let n = whole(n)?;
    let x = variable(alloc, x)?;
    Ok(ended(alloc, windows.declare(a, &x, &Val::Num(n), copies))?)
}

fn assign<C: Ledger>(
    alloc: Global,
    windows: &mut Windows,
    rest: &str,
    copies: &mut Steps<C>,
) -> Result<String> {
    let (a, rest) = parted(rest);
    let (x, n) = parted(rest);
    let a = activation(windows, a)?;
    let n = whole(n)?;
    let x = variable(alloc, x)?;
    Ok(ended(alloc, windows.assign(a, &x, &Val::Num(n), copies))?)
}

/// Calls a function of one parameter under an activation.
fn call<C: Ledger>(
    alloc: Global,
    windows: &mut Windows,
    rest: &str,
    copies: &mut Steps<C>,
) -> Result<String> {
    let (a, rest) = parted(rest);
    let (x, n) = parted(rest);
    let a = activation(windows, a)?;
    let args = [Val::Num(whole(n)?)];
    let mut names = Vec::new(alloc);
    names.push(variable(alloc, x)?)?;
    let params = Names::from_vec(alloc, names)?;
    Ok(called(alloc, windows.new_act(a, &params, &args, copies))?)
}

/// Calls a function without parameters under an activation.
fn enter<C: Ledger>(
    alloc: Global,
    windows: &mut Windows,
    rest: &str,
    copies: &mut Steps<C>,
) -> Result<String> {
    let a = activation(windows, rest)?;
    let params = Names::from_vec(alloc, Vec::new(alloc))?;
    Ok(called(alloc, windows.new_act(a, &params, &[], copies))?)
}

fn called(alloc: Global, answer: Result<ActId, Fail>) -> Result<String, NoMemory> {
    match answer {
        Ok(a) => format!(in alloc; "activation {}", a.0),
        Err(fail) => refused(alloc, fail),
    }
}

fn get(alloc: Global, windows: &Windows, rest: &str) -> Result<String> {
    let (a, x) = parted(rest);
    let a = activation(windows, a)?;
    let x = variable(alloc, x)?;
    match windows.lookup(a, &x) {
        Some(Val::Num(n)) => Ok(format!(in alloc; "{n}")?),
        Some(_) => bail!("no number"),
        None => Ok(format!(in alloc; "none")?),
    }
}

/// The letters that have a number, each with it.
fn all(alloc: Global, windows: &Windows, rest: &str) -> Result<String> {
    let mut shown = format!(in alloc; "letters:")?;
    for letter in b'a'..=b'z' {
        let x = of_letter(alloc, letter)?;
        let a = activation(windows, rest)?;
        if let Some(Val::Num(n)) = windows.lookup(a, &x) {
            shown.push_str(format!(in alloc; " {} {n}", char::from(letter))?.as_str())?;
        }
    }
    Ok(shown)
}
