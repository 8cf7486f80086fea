//! Policies, each read from a line and printed, or its first fault.
//!
//! What is printed for a policy is its text of version 2, and for a fault its words, and the name
//! at fault where there is one.
use anyhow::Result;
use ff_name::Text;
use ff_policy::{Policy, PolicyFault};
use std::alloc::Global;

/// What is printed for a line.
pub fn answer(alloc: Global, line: &[u8]) -> Result<String> {
    match Policy::read(alloc, line) {
        Ok(policy) => printed(alloc, &policy),
        Err(fault) => words(alloc, &fault),
    }
}

fn printed(alloc: Global, policy: &Policy) -> Result<String> {
    let mut out = Vec::new(alloc);
    policy.print(alloc, &mut out)?;
    Ok(String::from_utf8(out)?)
}

fn words(alloc: Global, fault: &PolicyFault) -> Result<String> {
    match name_at_fault(fault) {
        None => Ok(format!(in alloc; "{fault}")?),
        Some(name) => {
            let name = name.as_str();
            Ok(format!(in alloc; "{fault}: {name}")?)
        }
    }
}

/// The name that the fault tells, if any.
fn name_at_fault(fault: &PolicyFault) -> Option<&Text> {
    match fault {
        PolicyFault::UnknownField(name)
        | PolicyFault::BadShape(name)
        | PolicyFault::UnknownLevel(name)
        | PolicyFault::BadDomain(name)
        | PolicyFault::ContentBelowPresence(name) => Some(name),
        PolicyFault::TooLarge
        | PolicyFault::NotJson
        | PolicyFault::BadVersion
        | PolicyFault::Levels(_)
        | PolicyFault::BadFuel
        | PolicyFault::NoMemory => None,
    }
}
