//! The port, the error stream and the folder of the system, and a runtime in their place that
//! refuses some writes.

use super::ports::show_lines;
use super::shelves::show_fetch;
use ff_io::{DirShelf, Sink, StdErr, StdPort, put_all};
use std::alloc::Allocator;
use std::fmt::Display;
use std::io;
use std::io::{BufRead, ErrorKind, Input, Print};

/// A runtime that reads `hi` and refuses to write what begins with a `!`.
struct Fake;

fn refuse_marked(bytes: &[u8]) -> io::Result<()> {
    if bytes.starts_with(b"!") {
        return Err(io::Error::from(ErrorKind::BrokenPipe));
    }
    Ok(())
}

impl Input for Fake {
    type Reader = &'static [u8];

    fn read_line<A: Allocator + Clone>(&self, _buf: &mut String<A>) -> io::Result<usize> {
        Err(io::Error::from(ErrorKind::Unsupported))
    }

    fn lines<A: Allocator>(&self, alloc: A) -> io::Lines<&'static [u8], A> {
        self.reader().lines(alloc)
    }

    fn reader(&self) -> &'static [u8] {
        b"hi"
    }
}

impl Print for Fake {
    fn print<D: Display + Drop>(&self, _value: D) -> io::Result<()> {
        Ok(())
    }

    fn println<D: Display + Drop>(&self, _value: D) -> io::Result<()> {
        Ok(())
    }

    fn write_all(&self, bytes: &[u8]) -> io::Result<()> {
        refuse_marked(bytes)
    }
}

fn show_fake(rt: &HostRuntime) -> io::Result<()> {
    show_lines(rt, &mut StdPort::new(&Fake))?;
    let mut port = StdPort::new(&Fake);
    for text in ["yes", "!no"] {
        let answer = put_all(&mut port, text.as_bytes());
        println!(rt; "a write of all of {text}: {answer:?}")?;
    }
    Ok(())
}

fn show_standard(rt: &HostRuntime) -> io::Result<()> {
    let mut port = StdPort::new(rt);
    show_lines(rt, &mut port)?;
    let answer = put_all(&mut port, b"written to standard output\n");
    println!(rt; "a write of all of it: {answer:?}")
}

fn show_error_stream(rt: &HostRuntime) -> io::Result<()> {
    let mut sink = StdErr::new(rt);
    let text = sink.write(b"ok\n");
    let none = sink.write(b"\xffk\n");
    println!(rt; "a write of a text of three bytes: {text:?}")?;
    println!(rt; "a write of bytes that are no text: {none:?}")
}

fn show_folder(rt: &HostRuntime) -> io::Result<()> {
    let mut shelf = DirShelf::new(rt);
    for (name, at) in [
        ("shelf.txt", 0),
        ("shelf.txt", 1),
        ("shelf.txt", 3),
        ("no_such_file.txt", 0),
    ] {
        show_fetch(rt, &mut shelf, name, at)?;
    }
    Ok(())
}

/// Prints what the ports, the error stream and the folder of the system give.
pub fn show(rt: &HostRuntime) -> io::Result<()> {
    println!(rt; "## A runtime that reads hi and refuses to write what begins with a mark")?;
    show_fake(rt)?;
    println!(rt; "## Standard input and output")?;
    show_standard(rt)?;
    println!(rt; "## The error stream takes text alone")?;
    show_error_stream(rt)?;
    println!(rt; "## The working folder, whose file shelf.txt holds abc")?;
    show_folder(rt)
}
