//! Policies at their limits, the levels that they give, and the built-in one.
ghost use Rattle.std.specs.Prelude.{◌≡◌};
ghost use Rattle.ff_policy.specs.Assignment.{builtin};

use anyhow::Result;
use ff_name::{Domain, Level, NoMemory};
use ff_policy::{Policy, PolicyFault};
use ff_value::{Act, Input, Out};
use std::alloc::Global;
use std::io;

/// A policy of the levels L and H.
const TWO: &str = r#"{"version":1,"levels":["L","H"],"below":[["L","H"]],"ui":"H","domain":"L"}"#;

/// What is read of a policy of this many bytes, with blanks at its end.
fn read_long(alloc: Global, bytes: usize) -> Result<Policy, PolicyFault> {
    let mut text = Vec::from_slice(alloc, TWO.as_bytes())?;
    let padding = bytes.saturating_sub(text.len());
    let blanks = vec![in alloc; b' '; padding]?;
    text.extend_from_slice(&blanks)?;
    Policy::read(alloc, &text)
}

/// What is read of a policy whose levels are this many arrays, each in the next.
fn read_deep(alloc: Global, arrays: usize) -> Result<Policy, PolicyFault> {
    let mut text = Vec::from_slice(alloc, br#"{"version":1,"levels":"#)?;
    text.extend_from_slice(&vec![in alloc; b'['; arrays]?)?;
    text.extend_from_slice(&vec![in alloc; b']'; arrays]?)?;
    text.push(b'}')?;
    Policy::read(alloc, &text)
}

/// Prints whether a policy was read, or its fault.
fn show_read(rt: &HostRuntime, what: &str, answer: Result<Policy, PolicyFault>) -> io::Result<()> {
    match answer {
        Ok(_policy) => println!(rt; "{what}: a policy"),
        Err(fault) => show_fault(rt, what, &fault),
    }
}

fn show_fault(rt: &HostRuntime, what: &str, fault: &PolicyFault) -> io::Result<()> {
    match fault {
        PolicyFault::BadShape(name) => println!(rt; "{what}: {fault} {}", name.as_str()),
        _ => println!(rt; "{what}: {fault}"),
    }
}

fn show_limits(rt: &HostRuntime) -> io::Result<()> {
    show_read(
        rt,
        "a byte that is no text",
        Policy::read(rt.alloc(), b"\"\xff\""),
    )?;
    show_read(rt, "65536 bytes", read_long(rt.alloc(), 65_536))?;
    show_read(rt, "65537 bytes", read_long(rt.alloc(), 65_537))?;
    show_read(rt, "126 arrays", read_deep(rt.alloc(), 126))?;
    show_read(rt, "127 arrays", read_deep(rt.alloc(), 127))
}

/// A policy of four levels in a row, with keys of several lengths.
const KEYS: &str =
    r#"{"version":1,"levels":["a","b","c","d"],"below":[["a","b"],["b","c"],["c","d"]],
    "ui":"d","domain":"a","domains":{".com":"b",".shop.com":"c","x.shop.com":"d"}}"#;

/// The number of a domain's level, or `None` where the text is no domain.
fn level_of(alloc: Global, policy: &Policy, domain: &str) -> Result<Option<u8>, NoMemory> {
    match Domain::of(alloc, domain.as_bytes())? {
        None => Ok(None),
        Some(domain) => Ok(Some(policy.domain_level(&domain).0)),
    }
}

fn show_domains(rt: &HostRuntime, policy: &Policy) -> io::Result<()> {
    for domain in [
        "x.shop.com",
        "y.shop.com",
        "a.x.shop.com",
        "shop.com",
        "workshop.com",
        "com",
        "shop.com.net",
    ] {
        let level = level_of(rt.alloc(), policy, domain)?;
        println!(rt; "{domain}: {level:?}")?;
    }
    Ok(())
}

/// What is printed of a policy.
fn text_of(alloc: Global, policy: &Policy) -> Result<String> {
    let mut text = Vec::new(alloc);
    policy.print(alloc, &mut text)?;
    Ok(String::from_utf8(text)?)
}

/// Prints the levels of domains under the policy of a text, and the policy, and gives its text.
fn show_text(rt: &HostRuntime, text: &str) -> Result<String> {
    let policy = Policy::read(rt.alloc(), text.as_bytes())?;
    show_domains(rt, &policy)?;
    let text = text_of(rt.alloc(), &policy)?;
    println!(rt; "{text}")?;
    Ok(text)
}

/// Prints the levels that the built-in policy gives.
fn show_levels(rt: &HostRuntime, policy: &Policy) -> io::Result<()>
    requires { policy.now ≡ builtin }
{
    let plain = Input {
        tag: None,
        act: Act::Closes(0),
    };
    let tagged = Input {
        tag: Some(Level(1)),
        act: Act::Closes(0),
    };
    let (content, presence) = (policy.content(&plain).0, policy.presence(&plain).0);
    println!(rt; "close 0: content {content}, presence {presence}")?;
    let (content, presence) = (policy.content(&tagged).0, policy.presence(&tagged).0);
    println!(rt; "close 0 with the tag of 1: content {content}, presence {presence}")?;
    println!(rt;
        "opened: {}, fuel {}",
        policy.level_out(&Out::Opened).0,
        policy.fuel()
    )
}

fn show_builtin(rt: &HostRuntime) -> Result<()> {
    let policy = Policy::builtin(rt.alloc())?;
    show_levels(rt, &policy)?;
    let text = text_of(rt.alloc(), &policy)?;
    println!(rt; "{text}")?;
    Ok(())
}

/// Prints what policies are read, and the levels that they give.
pub fn show(rt: &HostRuntime) -> Result<()> {
    println!(rt; "## Policies at their limits")?;
    show_limits(rt)?;
    println!(rt; "## The levels of domains by keys of several lengths, and the policy printed")?;
    let text = show_text(rt, KEYS)?;
    println!(rt; "## The same of the policy that was printed")?;
    let again = show_text(rt, &text)?;
    println!(rt; "printed alike: {}", text == again)?;
    println!(rt; "## The built-in policy: the levels L, number 0, and H, number 1")?;
    show_builtin(rt)
}
