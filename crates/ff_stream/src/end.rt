//! How going through a trace ends.

/// What is wrong with a line, where `F` is what its reader finds wrong with it.
#[derive(Clone, Copy, Debug, PartialEq, Eq)]
pub enum Fault<F> {
    /// It has more than [`MOST_LINE_BYTES`](ff_io::MOST_LINE_BYTES) bytes, without its newline.
    TooLong,
    /// It has a byte that comes after the first [`MOST_TRACE_BYTES`](ff_io::MOST_TRACE_BYTES) of
    /// the trace. Where one byte gives both faults, this is the fault.
    TooMuch,
    /// Its size is right, and its reader refuses it.
    Line(F),
}

/// The first bad line of a trace.
#[derive(Clone, Copy, Debug, PartialEq, Eq)]
pub struct BadLine<F> {
    /// Its number, from 1; blank lines count too.
    pub number: u64,
    /// What is wrong with it.
    pub fault: Fault<F>,
}

/// How going through a trace ended.
#[derive(Clone, Copy, Debug, PartialEq, Eq)]
pub enum End<F> {
    /// The end of the trace was seen, and no line is bad.
    Done,
    /// A line is bad. The lines before it were taken, and their text was written.
    Bad(BadLine<F>),
    /// A read failed. The whole lines got before it were taken, and their text was written.
    ReadFault,
    /// A write failed. A proper front of the text was written.
    WriteFault,
    /// There is no memory. A front of the text was written.
    NoMemory,
}
