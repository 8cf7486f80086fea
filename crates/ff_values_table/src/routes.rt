//! What the levels of the built-in policy see of an input, and what they let out.
ghost use Rattle.ff_policy.specs.Assignment.{builtin};
ghost use Rattle.ff_route.specs.Route.{IsTagged};

use anyhow::Result;
use ff_name::{Level, Url};
use ff_policy::Policy;
use ff_route::{keep, mask, offers, sees};
use ff_value::{Act, Input, Offer, Out};

/// The input that opens an empty window, with the tag of `H`.
fn opening() -> Input
    ensures { IsTagged (builtin).order result }
{
    Input {
        tag: Some(Level(1)),
        act: Act::Opens(Url::Blank),
    }
}

/// What is offered of the input, in words.
fn in_words(offered: Option<&Input>) -> &'static str {
    match offered {
        None => "nothing",
        Some(input) if *input == opening() => "the input as it is",
        Some(_) => "another input",
    }
}

/// What is seen of the input, in words.
fn seen_in_words(seen: &Offer) -> &'static str {
    match seen {
        Offer::Nothing => "nothing",
        Offer::Whole => "the input as it is",
        Offer::Other(_) => "another input",
    }
}

fn show_sees(rt: &HostRuntime) -> Result<()> {
    let policy = Policy::builtin(rt.alloc())?;
    let low = sees(rt.alloc(), &policy, Level(0), &opening())?;
    let high = sees(rt.alloc(), &policy, Level(1), &opening())?;
    println!(rt;
        "L sees {}, H sees {}",
        seen_in_words(&low),
        seen_in_words(&high)
    )?;
    Ok(())
}

fn show_offers(rt: &HostRuntime) -> Result<()> {
    let policy = Policy::builtin(rt.alloc())?;
    let input = opening();
    let offers = offers(rt.alloc(), &policy, &input)?;
    for l in 0..offers.len() {
        println!(rt; "offered {}", in_words(offers.to(l)))?;
    }
    Ok(())
}

fn show_keeps(rt: &HostRuntime) -> Result<()> {
    let policy = Policy::builtin(rt.alloc())?;
    let low = keep(&policy, Level(0), &Out::Opened);
    let high = keep(&policy, Level(1), &Out::Opened);
    println!(rt; "opened is let out at L {low}, at H {high}")?;
    Ok(())
}

/// Prints what is left of an input that is masked: its tag, and an address that says nothing.
fn show_mask(rt: &HostRuntime) -> Result<()> {
    let masked = mask(rt.alloc(), &opening())?;
    println!(rt; "masked: {}", in_words(Some(&masked)))?;
    Ok(())
}

/// Prints who sees which input, and where an output is let out.
pub fn show(rt: &HostRuntime) -> Result<()> {
    println!(rt; "## An input with the tag of H, under the built-in policy")?;
    show_sees(rt)?;
    println!(rt; "## Offers in the order of the levels L and H")?;
    show_offers(rt)?;
    println!(rt; "## What the user is shown is let out at one level")?;
    show_keeps(rt)?;
    println!(rt; "## The same input, masked")?;
    show_mask(rt)
}
