//! Who sees what: the first line of its input is a policy, and each further one an input. Of each
//! input it prints whether a level sees it whole, only that there was such a one, or nothing.
//!
//! Floor: beside. An example of a program over `libffox`; nothing stands on it.
#![tactic(auto)]

ghost use Rattle.std.specs.Prelude.{◌<◌};
ghost use Rattle.libffox.specs.Levels.{size};
ghost use Rattle.libffox.specs.Inputs.{IsInputOf};

use libffox::Level;
use libffox::policy::Policy;
use libffox::route::sees;
use libffox::trace::{Room, read_input};
use libffox::value::{Input, Offer};
use std::io;

/// The most bytes that a line may have here.
const MOST_BYTES: usize = 65_536;

/// What a level sees of an input, in a word.
fn word(policy: &Policy, rt: &HostRuntime, number: u8, input: &Input) -> &'static str
    requires level { number < size policy.now.order }
    requires input { IsInputOf policy.now.order input.now }
{
    match &sees(rt.alloc(), policy, Level(number), input) {
        Ok(Offer::Nothing) => "nothing",
        Ok(Offer::Whole) => "all of it",
        Ok(Offer::Other(_)) => "that it came",
        Err(_) => "no memory",
    }
}

/// Prints what each level sees of the input of a line.
fn show(rt: &HostRuntime, policy: &Policy, line: &str) -> io::Result<()> {
    if line.len() > MOST_BYTES {
        return println!(rt; "{line}: too long");
    }
    let mut room = Room::new(rt.alloc());
    match &read_input(rt.alloc(), &mut room, line.as_bytes(), policy.lattice()) {
        Ok(Some(input)) => {
            println!(rt; "{line}")?;
            for number in 0..policy.lattice().size() {
                let name = policy.lattice().name(Level(number));
                println!(rt;
                    "  {} sees {}",
                    name.as_str(),
                    word(policy, rt, number, input)
                )?;
            }
            Ok(())
        }
        Ok(None) => Ok(()),
        Err(_) => println!(rt; "{line}: no input"),
    }
}

fn main(rt: HostRuntime) -> io::Result<()> {
    let mut policy = None;
    for line in rt.lines(rt.alloc()) {
        let line = line?;
        match &policy {
            Some(policy) => show(&rt, policy, line.as_str())?,
            None => match Policy::read(rt.alloc(), line.as_bytes()) {
                Ok(read) => policy = Some(read),
                Err(_) => return println!(rt; "no policy"),
            },
        }
    }
    Ok(())
}
