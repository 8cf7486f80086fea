//! Ports and sinks in memory, and the lines of a port.

use super::given::{long_port, port_of, text_of};
use ff_io::{LineFail, Lines, MemPort, MemSink, Next, Port, Sink, put_all};
use std::alloc::{AllocError, Global};
use std::io;

/// A port of the pieces `ab`, nothing and `cde`, whose third read and second write fail.
fn failing_port(alloc: Global) -> Result<MemPort, AllocError> {
    port_of(alloc, &["ab", "", "cde"], &[3], &[2])
}

fn show_reads(rt: &HostRuntime) -> io::Result<()> {
    let mut port = failing_port(rt.alloc())?;
    for _ in 0..5 {
        let answer = port.read(&mut [0; 2]);
        println!(rt; "a read of two bytes: {answer:?}")?;
    }
    println!(rt; "got {:?}", text_of(port.got_bytes()))
}

fn show_writes(rt: &HostRuntime) -> io::Result<()> {
    let mut port = failing_port(rt.alloc())?;
    for _ in 0..3 {
        let answer = port.write(b"xyz");
        println!(rt; "a write of xyz: {answer:?}")?;
    }
    println!(rt; "put {:?}", text_of(port.put_bytes()))
}

fn show_whole_writes(rt: &HostRuntime) -> io::Result<()> {
    let mut port = failing_port(rt.alloc())?;
    for _ in 0..2 {
        let answer = put_all(&mut port, b"xyz");
        println!(rt; "a write of all of xyz: {answer:?}")?;
    }
    println!(rt; "put {:?}", text_of(port.put_bytes()))
}

fn show_sink(rt: &HostRuntime) -> io::Result<()> {
    let mut sink = MemSink::new(rt.alloc(), vec![in rt.alloc(); 2]?);
    for _ in 0..3 {
        let answer = sink.write(b"ab");
        println!(rt; "a write of ab: {answer:?}")?;
    }
    println!(rt; "put {:?}", text_of(sink.put_bytes()))
}

/// Prints the lines of a port, at most nine, and why there is no further one.
pub fn show_lines<P: Port>(rt: &HostRuntime, port: &mut P) -> io::Result<()> {
    let mut lines = Lines::new(rt.alloc());
    for _ in 0..9 {
        if lines.failed() {
            break;
        }
        match lines.next(port) {
            Ok(Next::Line(line)) => {
                show_line(rt, &line)?;
                lines.take_back(line);
            }
            Ok(Next::End) => return println!(rt; "  the end"),
            Err(fail) => show_fail(rt, fail)?,
        }
    }
    Ok(())
}

/// The longest line that is printed whole, in bytes.
const MOST_PRINTED: usize = 60;

fn show_line(rt: &HostRuntime, line: &[u8]) -> io::Result<()> {
    let size = line.len();
    if size > MOST_PRINTED {
        return println!(rt; "  a line of {size} bytes");
    }
    println!(rt; "  {:?}", text_of(line))
}

fn show_fail(rt: &HostRuntime, fail: LineFail) -> io::Result<()> {
    println!(rt; "  {fail}")
}

fn show_cuts(rt: &HostRuntime) -> io::Result<()> {
    let cases: [&[&str]; 5] = [
        &[],
        &["\n"],
        &["ab", "c\nd", "e", "\n"],
        &["a\n\nb\r\n"],
        &["a\nb", "c"],
    ];
    for pieces in cases {
        println!(rt; "{pieces:?}")?;
        show_lines(rt, &mut port_of(rt.alloc(), pieces, &[], &[])?)?;
    }
    Ok(())
}

fn show_failing_reads(rt: &HostRuntime) -> io::Result<()> {
    for number in 1..6 {
        println!(rt; "read {number} fails")?;
        let pieces = ["a\nb", "c\nd\ne", "f\n"];
        show_lines(rt, &mut port_of(rt.alloc(), &pieces, &[number], &[])?)?;
    }
    Ok(())
}

fn show_limits(rt: &HostRuntime) -> io::Result<()> {
    for (letters, last) in [
        (4_194_304, "\nab"),
        (4_194_304, "yz"),
        (4_194_304, ""),
        (4_194_305, "\nab"),
    ] {
        println!(rt; "{letters} letters and {last:?}")?;
        show_lines(rt, &mut long_port(rt.alloc(), "", letters, last)?)?;
    }
    Ok(())
}

/// Prints what ports and sinks in memory answer, and the lines of ports.
pub fn show(rt: &HostRuntime) -> io::Result<()> {
    println!(rt; "## Reads of a port of ab and cde, of which the third fails")?;
    show_reads(rt)?;
    println!(rt; "## Writes that take two bytes, of which the second fails")?;
    show_writes(rt)?;
    println!(rt; "## Whole writes; one that fails leaves a front")?;
    show_whole_writes(rt)?;
    println!(rt; "## A sink in memory, whose second write fails")?;
    show_sink(rt)?;
    println!(rt; "## The lines of pieces, some of which cut a line")?;
    show_cuts(rt)?;
    println!(rt; "## A read that fails comes after the whole lines, which are a, bc, d and ef")?;
    show_failing_reads(rt)?;
    println!(rt; "## A line at its limit and one byte past it")?;
    show_limits(rt)
}
