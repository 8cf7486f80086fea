//! How a case ended.
use crate::case::Part;
use crate::texts::{count_lines, text_of, without_lines};
use std::io;

/// The number of the status, how many bytes were got, what was put and what was reported.
#[derive(Drop)]
pub(crate) struct Ended {
    pub number: u8,
    pub got: usize,
    pub put: Vec<u8>,
    pub reported: Vec<u8>,
}

impl Ended {
    /// Whether another run ended in the same way.
    pub(crate) fn is(&self, other: &Ended) -> bool {
        self.is_but_for_report(other) && self.reported.as_slice() == other.reported.as_slice()
    }

    /// Whether another run ended in the same way, but for what it reported.
    fn is_but_for_report(&self, other: &Ended) -> bool {
        self.number == other.number
            && self.got == other.got
            && self.put.as_slice() == other.put.as_slice()
    }

    /// Whether a run in which a call of a part failed ended as it should, beside the whole run.
    pub(crate) fn is_right(&self, whole: &Ended, part: Part) -> bool {
        let is_front = whole.put.starts_with(self.put.as_slice());
        match part {
            Part::Read => self.number == 5 && is_front,
            Part::Write => self.number == 6 && is_front && self.put.len() < whole.put.len(),
            Part::Fetch => self.number == 7 && self.got == 0 && self.put.is_empty(),
            Part::Report => self.is_with_shorter_report(whole),
        }
    }

    /// Whether the run ended as the whole one, but for a shorter front of its report.
    fn is_with_shorter_report(&self, whole: &Ended) -> bool {
        self.is_but_for_report(whole)
            && whole.reported.starts_with(self.reported.as_slice())
            && self.reported.len() < whole.reported.len()
    }

    /// Prints how it ended, line by line.
    pub(crate) fn show(&self, rt: &HostRuntime, words: &[String]) -> io::Result<()> {
        println!(rt; "{words:?}: {}, got {} bytes", self.number, self.got)?;
        show_lines(rt, text_of(&self.put))?;
        self.show_report(rt)
    }

    /// Prints how it ended, with the number of lines and the last of them.
    pub(crate) fn show_last(
        &self,
        rt: &HostRuntime,
        words: &[String],
        most: usize,
    ) -> io::Result<()> {
        let lines = count_lines(self.put.as_slice());
        println!(rt;
            "{words:?}: {}, got {} bytes, the last {most} of {lines} lines",
            self.number, self.got
        )?;
        show_lines(
            rt,
            without_lines(text_of(&self.put), lines.saturating_sub(most)),
        )?;
        self.show_report(rt)
    }

    fn show_report(&self, rt: &HostRuntime) -> io::Result<()> {
        if !self.reported.is_empty() {
            println!(rt; "! {:?}", text_of(&self.reported))?;
        }
        Ok(())
    }
}

/// Prints the lines of a text, indented.
fn show_lines(rt: &HostRuntime, text: &str) -> io::Result<()> {
    for line in text.as_bytes().split_inclusive(|byte| *byte == b'\n') {
        match line.strip_suffix(b"\n") {
            Some(line) => println!(rt; "  {}", text_of(line))?,
            None => println!(rt; "  {} (without a newline)", text_of(line))?,
        }
    }
    Ok(())
}
