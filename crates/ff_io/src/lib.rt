//! The edge to the outside: ports that are read and written, sinks that are
//! written, shelves of named files, the lines of a port one at a time, and writing a whole text.
//!
//! Floor: ground. It knows no browser, and not what a word means.
//!
//! Every call of the outside may fail. Each object counts its faults, and a
//! failure comes only where the count for that kind of call rose.
#![tactic(auto)]

mod buffer;
mod chunk;
mod counts;
mod cutting;
mod dir_shelf;
mod fetch;
mod fetches;
mod journal;
mod lines;
mod mem_port;
mod mem_shelf;
mod mem_sink;
mod outside;
mod retry;
mod source;
mod std_err;
mod std_port;
mod tape;
mod whole;

pub use chunk::MOST_READ_BYTES;
pub use cutting::split_line;
pub use dir_shelf::DirShelf;
pub use fetch::{FetchFail, fetch_front};
pub use lines::{LineFail, Lines, MOST_LINE_BYTES, MOST_TRACE_BYTES, Next};
pub use mem_port::MemPort;
pub use mem_shelf::MemShelf;
pub use mem_sink::MemSink;
pub use outside::{Failed, Port, Shelf, Sink};
use std::alloc::AllocError;
pub use std_err::StdErr;
pub use std_port::StdPort;
pub use whole::put_all;

/// There is no memory for what a call makes: it asked for some, and none was given.
pub type NoMemory = AllocError;
