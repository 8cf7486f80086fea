//! The exit status and the error line of each way in which a run may end. The stored output holds
//! the words of every fault.

use ff_forms::SyntaxFault;
use ff_io::MemSink;
use ff_lattice::LatticeFault;
use ff_name::Text;
use ff_policy::PolicyFault;
use ff_saved_rows::SavedFault;
use ff_status::{Status, TraceFault};
use ff_text::TextFault;
use ff_trace::LineFault;
use std::alloc::{AllocError, Global};
use std::{io, str};

/// Prints the number of the status, and its line as a literal.
fn show(rt: &HostRuntime, status: &Status) -> io::Result<()> {
    let mut sink = MemSink::new(rt.alloc(), Vec::new(rt.alloc()));
    status.report(&mut sink);
    let number = status.number();
    match str::from_utf8(sink.put_bytes()) {
        Ok(line) => println!(rt; "{number} {line:?}"),
        Err(_) => println!(rt; "{number} and a line that is no text"),
    }
}

fn show_statuses(rt: &HostRuntime) -> io::Result<()> {
    for status in [
        Status::Done,
        Status::Leaks,
        Status::Usage,
        Status::ReadFault,
        Status::WriteFault,
        Status::ShelfFault,
        Status::NoMemory,
        Status::Saved(SavedFault::OtherPolicy),
        Status::Saved(SavedFault::NotSaved),
    ] {
        show(rt, &status)?;
    }
    Ok(())
}

fn show_bad_lines(rt: &HostRuntime) -> io::Result<()> {
    for (line, fault) in [
        (1, TraceFault::TooLong),
        (20, TraceFault::TooMuch),
        (3, TraceFault::Command),
        (u64::MAX, TraceFault::Line(LineFault::Level)),
        (7, TraceFault::Line(LineFault::Kind)),
        (7, TraceFault::Line(LineFault::Count)),
        (7, TraceFault::Line(LineFault::Number)),
        (7, TraceFault::Line(LineFault::Url)),
        (7, TraceFault::Line(LineFault::NoMemory)),
    ] {
        show(rt, &Status::Trace(line, fault))?;
    }
    Ok(())
}

fn show_text_faults(rt: &HostRuntime) -> io::Result<()> {
    for fault in [
        TextFault::Empty,
        TextFault::Unclosed(0),
        TextFault::Extra(1),
        TextFault::BadByte(2),
        TextFault::BadEscape(3),
        TextFault::BadUtf8(40),
        TextFault::TooDeep(u32::MAX),
        TextFault::NoMemory,
    ] {
        show(
            rt,
            &Status::Trace(7, TraceFault::Line(LineFault::Text(fault))),
        )?;
    }
    Ok(())
}

fn show_syntax_faults(rt: &HostRuntime) -> io::Result<()> {
    for fault in [
        SyntaxFault::Head(5),
        SyntaxFault::Count(6),
        SyntaxFault::Name(7),
        SyntaxFault::Number(8),
        SyntaxFault::Url(9),
        SyntaxFault::Place(10),
        SyntaxFault::NoMemory,
    ] {
        show(
            rt,
            &Status::Trace(7, TraceFault::Line(LineFault::Syntax(fault))),
        )?;
    }
    Ok(())
}

fn text(alloc: Global, text: &str) -> Result<Text, AllocError> {
    Text::of_str(alloc, text)
}

fn show_policies(rt: &HostRuntime) -> io::Result<()> {
    let alloc = rt.alloc();
    for fault in [
        PolicyFault::TooLarge,
        PolicyFault::NotJson,
        PolicyFault::BadVersion,
        PolicyFault::UnknownField(text(alloc, "a\"\\\n\t\u{1f}\u{7f}\u{e9}")?),
        PolicyFault::BadShape(text(alloc, "ui")?),
        PolicyFault::UnknownLevel(text(alloc, "ui")?),
        PolicyFault::BadDomain(text(alloc, "")?),
        PolicyFault::BadFuel,
        PolicyFault::ContentBelowPresence(text(alloc, "type")?),
        PolicyFault::NoMemory,
    ] {
        show(rt, &Status::Policy(fault))?;
    }
    Ok(())
}

fn show_levels(rt: &HostRuntime) -> io::Result<()> {
    let alloc = rt.alloc();
    for fault in [
        LatticeFault::NoLevels,
        LatticeFault::TooMany,
        LatticeFault::BadName(15),
        LatticeFault::Repeated(text(alloc, "L")?),
        LatticeFault::Unknown(text(alloc, "M")?),
        LatticeFault::Cycle(text(alloc, "L")?, text(alloc, "H")?),
        LatticeFault::NoJoin(text(alloc, "L")?, text(alloc, "H")?),
        LatticeFault::NoMeet(text(alloc, "L")?, text(alloc, "H")?),
        LatticeFault::NoMemory,
    ] {
        show(rt, &Status::Policy(PolicyFault::Levels(fault)))?;
    }
    Ok(())
}

/// Prints the exit status and the error line of each way in which a run may end.
pub fn show_all(rt: &HostRuntime) -> io::Result<()> {
    show_statuses(rt)?;
    show_bad_lines(rt)?;
    show_text_faults(rt)?;
    show_syntax_faults(rt)?;
    show_policies(rt)?;
    show_levels(rt)
}
