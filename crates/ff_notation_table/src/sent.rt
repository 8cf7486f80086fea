//! Outputs, which equal their copies, printed at the level L.

use crate::shown::pairs_of;
use crate::spelling::{text, whole_lines};
use anyhow::{Context, Result, bail};
use ff_lattice::Lattice;
use ff_trace::print_out;
use ff_value::{Domain, Fault, Level, NoMemory, Out, Shown, ShownPart, Url};
use std::alloc::Global;

/// Prints the rows.
pub fn show<R: Print>(rt: &R, alloc: Global) -> Result<()> {
    println!(rt; "# Each output, printed at the level L")?;
    show_out(rt, alloc, &Out::Opened)?;
    show_out(rt, alloc, &Out::Closed(7))?;
    show_out(rt, alloc, &Out::Loaded(1, url(alloc)?, page(alloc)?))?;
    show_out(
        rt,
        alloc,
        &Out::Updated(0, Shown::from_vec(alloc, Vec::new(alloc))?),
    )?;
    show_faults(rt, alloc)?;
    show_out(rt, alloc, &Out::Stopped)?;
    println!(rt; "# A request, whose cookies are put in the order of their keys")?;
    show_out(rt, alloc, &request(alloc)?)
}

fn show_out<R: Print>(rt: &R, alloc: Global, one: &Out) -> Result<()> {
    if !is_copied(one)? {
        bail!("an output isn't its copy");
    }
    let lattice = Lattice::two(alloc)?;
    let mut out = Vec::new(alloc);
    print_out(Level(0), &lattice, one, &mut out)?;
    print!(rt; "  {}", whole_lines(alloc, out)?)?;
    Ok(())
}

fn is_copied(one: &Out) -> Result<bool, NoMemory> {
    let copy = one.copy()?;
    Ok(copy == *one)
}

fn show_faults<R: Print>(rt: &R, alloc: Global) -> Result<()> {
    for (win, fault) in [
        (0, Fault::Kind),
        (1, Fault::Name),
        (2, Fault::Range),
        (u32::MAX, Fault::Overflow),
        (3, Fault::Limit),
        (4, Fault::Depth),
        (0, Fault::Dead),
    ] {
        show_out(rt, alloc, &Out::Error(win, fault))?;
    }
    Ok(())
}

fn url(alloc: Global) -> Result<Url> {
    Ok(Url::read(alloc, b"http://a.com/p")?)
}

/// A link, a button, and a division of a text and a text box.
fn page(alloc: Global) -> Result<Shown, NoMemory> {
    let mut inner = Vec::new(alloc);
    inner.push(ShownPart::Text(text(alloc, "a\nb")?))?;
    inner.push(ShownPart::TextBox(text(alloc, "")?))?;
    let mut parts = Vec::new(alloc);
    parts.push(ShownPart::Link(Url::Blank, text(alloc, "l")?))?;
    parts.push(ShownPart::Button(text(alloc, "ok")?))?;
    parts.push(ShownPart::Div(Shown::from_vec(alloc, inner)?))?;
    Shown::from_vec(alloc, parts)
}

fn request(alloc: Global) -> Result<Out> {
    let domain = Domain::of(alloc, b"a.com")?.context("a domain")?;
    let cookies = pairs_of(alloc, &[("b", "v"), ("", "v"), ("ab", "v"), ("a", "v")])?;
    Ok(Out::Send(domain, text(alloc, "/x")?, cookies, text(alloc, "\"")?))
}
