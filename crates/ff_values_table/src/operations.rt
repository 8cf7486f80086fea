//! Pure operators, each applied to the operands of a line.
//!
//! A line is `MASS OPERATOR OPERAND..`, separated by single blanks. An operand is a number, `null`,
//! `true`, `false`, `'` and then a text without blanks, `*N` for a text of N times the letter `a`,
//! `w` and then the number of a window, `n` and then the number of a node, or `fn` for a function.
//! The answer is a value, spelled so, and the mass after it, or a fault.

use crate::spelling;
use anyhow::{Context, Result};
use ff_name::by_word;
use ff_operators::{Applied, Fail, apply};
use ff_value::{
    ActId, Code, Expr, Lit, NoMemory, NodeId, Op, Shared, SharedList, Text, Val, WinId,
};
use std::alloc::Global;

/// What a line asks for.
#[derive(Debug, Drop)]
pub struct Call {
    pub mass: u64,
    pub op: Op,
    pub args: Vec<Val>,
}

/// The call of a line, or `None` where it is none.
fn read(alloc: Global, line: &str) -> Result<Option<Call>, NoMemory> {
    let mut words = line.split(' ');
    let Some(Ok(mass)) = words.next().map(|word| word.parse::<u64>()) else {
        return Ok(None);
    };
    let Some(op) = words.next().and_then(|word| by_word::<Op>(word.as_bytes())) else {
        return Ok(None);
    };
    let mut args = Vec::new(alloc);
    for word in words {
        match operand(alloc, word)? {
            Some(arg) => args.push(arg)?,
            None => return Ok(None),
        }
    }
    Ok(Some(Call { mass, op, args }))
}

fn operand(alloc: Global, word: &str) -> Result<Option<Val>, NoMemory> {
    match word {
        "null" => Ok(Some(Val::Null)),
        "true" => Ok(Some(Val::Bool(true))),
        "false" => Ok(Some(Val::Bool(false))),
        "fn" => Ok(Some(function(alloc)?)),
        _ => marked(alloc, word),
    }
}

/// An operand that a mark stands before, or a number.
fn marked(alloc: Global, word: &str) -> Result<Option<Val>, NoMemory> {
    if let Some(text) = word.strip_prefix('\'') {
        return Ok(Some(Val::Str(Text::of_utf8(alloc, text.as_bytes())?)));
    }
    if let Some(count) = word.strip_prefix('*') {
        return repeated(alloc, count);
    }
    if let Some(number) = word.strip_prefix('w') {
        return Ok(number.parse::<u32>().ok().map(|n| Val::Win(WinId(n))));
    }
    if let Some(number) = word.strip_prefix('n') {
        return Ok(number.parse::<u32>().ok().map(|n| Val::Node(NodeId(n))));
    }
    Ok(word.parse::<i64>().ok().map(Val::Num))
}

fn repeated(alloc: Global, count: &str) -> Result<Option<Val>, NoMemory> {
    match count.parse::<usize>() {
        Ok(count) => {
            let letters = vec![in alloc; b'a'; count]?;
            Ok(Text::of(alloc, &letters)?.map(Val::Str))
        }
        Err(_) => Ok(None),
    }
}

fn function(alloc: Global) -> Result<Val, NoMemory> {
    Ok(Val::Code(Code {
        params: SharedList::from_vec(alloc, Vec::new(alloc))?,
        body: Shared::new(alloc, Expr::Lit(Lit::Null))?,
        env: ActId(0),
    }))
}

/// What is printed for a line.
pub fn answer(alloc: Global, line: &str) -> Result<String> {
    let call = read(alloc, line)?.context("no line of the table")?;
    match apply(alloc, call.op, &call.args, call.mass) {
        Ok(Applied { value, mass }) => {
            let value = spelling::of(alloc, &value)?;
            Ok(format!(in alloc; "{value} {mass}")?)
        }
        Err(Fail::Fault(fault)) => Ok(format!(in alloc; "fault {}", fault.word())?),
        Err(Fail::NoMemory) => Ok(format!(in alloc; "no memory")?),
    }
}
