//! What is said of a case.
use crate::texts::text_of;
use anyhow::{Context, Result, bail};
use ff_io::{MemPort, MemShelf, MemSink};
use std::alloc::{AllocError, Global};
use std::collections::BTreeMap;

/// Which calls of the outside fail.
#[derive(Clone, Copy)]
pub(crate) enum Part {
    Read,
    Write,
    Fetch,
    Report,
}

/// The words, the files, the trace with its attack and without it, and how the outside behaves.
#[derive(Drop)]
pub(crate) struct Case {
    pub words: Vec<String>,
    file: Vec<u8>,
    rules: Vec<u8>,
    state: Vec<u8>,
    pub trace: Vec<u8>,
    pub calm: Vec<u8>,
    grain: usize,
    bad_reads: Vec<u64>,
    bad_writes: Vec<u64>,
    bad_fetches: Vec<u64>,
    bad_reports: Vec<u64>,
}

/// As many bytes as a read of the program asks for.
const GRAIN: usize = 65_536;

impl Case {
    /// A case without words, files and trace, in which nothing fails.
    pub(crate) fn new(alloc: Global) -> Case {
        Case {
            words: Vec::new(alloc),
            file: Vec::new(alloc),
            rules: Vec::new(alloc),
            state: Vec::new(alloc),
            trace: Vec::new(alloc),
            calm: Vec::new(alloc),
            grain: GRAIN,
            bad_reads: Vec::new(alloc),
            bad_writes: Vec::new(alloc),
            bad_fetches: Vec::new(alloc),
            bad_reports: Vec::new(alloc),
        }
    }

    /// Takes a line that says something of the case.
    pub(crate) fn say(&mut self, alloc: Global, sort: &str, text: &str) -> Result<()> {
        match sort {
            "#" => *self = Case::new(alloc),
            "words" => self.words = words_of(alloc, text)?,
            "file" => self.file = Vec::from_slice(alloc, text.as_bytes())?,
            "fill" => fill(&mut self.file, text.parse::<u32>()? as usize)?,
            "rule" => add_line(&mut self.rules, text)?,
            "rules" => self.add_rules(text)?,
            "fill-rules" => fill(&mut self.rules, text.parse::<u32>()? as usize)?,
            "state" => add_line(&mut self.state, text)?,
            "in" => self.add_line(text)?,
            "only" => add_line(&mut self.trace, text)?,
            "times" => self.add_lines(text)?,
            "end" => self.trace.extend_from_slice(text.as_bytes())?,
            "grain" => self.grain = usize::from(text.parse::<u16>()?),
            _ => self.fail(part_of(sort)?, text.parse::<u64>()?)?,
        }
        Ok(())
    }

    fn add_line(&mut self, line: &str) -> Result<(), AllocError> {
        add_line(&mut self.trace, line)?;
        add_line(&mut self.calm, line)
    }

    /// Adds a line as many times as the number before it says.
    fn add_lines(&mut self, text: &str) -> Result<()> {
        let (times, line) = text.split_once(' ').context("a number and a line")?;
        for _ in 0..times.parse::<u32>()? {
            self.add_line(line)?;
        }
        Ok(())
    }

    /// Adds a line to the rules as many times as the number before it says.
    fn add_rules(&mut self, text: &str) -> Result<()> {
        let (times, line) = text.split_once(' ').context("a number and a line")?;
        for _ in 0..times.parse::<u32>()? {
            add_line(&mut self.rules, line)?;
        }
        Ok(())
    }

    /// Makes a call fail, by its number.
    pub(crate) fn fail(&mut self, part: Part, number: u64) -> Result<(), AllocError> {
        match part {
            Part::Read => self.bad_reads.push(number)?,
            Part::Write => self.bad_writes.push(number)?,
            Part::Fetch => self.bad_fetches.push(number)?,
            Part::Report => self.bad_reports.push(number)?,
        }
        Ok(())
    }

    /// Takes back the last call of a part that was to fail.
    pub(crate) fn mend(&mut self, part: Part) {
        let _number = match part {
            Part::Read => self.bad_reads.pop(),
            Part::Write => self.bad_writes.pop(),
            Part::Fetch => self.bad_fetches.pop(),
            Part::Report => self.bad_reports.pop(),
        };
    }

    /// Has the run go on from a saved text: the third word names it.
    pub(crate) fn go_on_from(&mut self, alloc: Global, saved: &[u8]) -> Result<(), AllocError> {
        self.state = Vec::from_slice(alloc, saved)?;
        self.name_state(alloc, "s.saved")
    }

    /// Has the run begin with new copies again.
    pub(crate) fn begin_anew(&mut self, alloc: Global) -> Result<(), AllocError> {
        self.name_state(alloc, "-")
    }

    fn name_state(&mut self, alloc: Global, name: &str) -> Result<(), AllocError> {
        let name = String::from_str(alloc, name)?;
        if let Some(word) = self.words.get_mut(2) {
            *word = name;
        }
        Ok(())
    }

    /// The shelf, with the files `p.json`, `r.rules` and `s.saved`.
    pub(crate) fn shelf(&self, alloc: Global) -> Result<MemShelf, AllocError> {
        let mut files = BTreeMap::new(alloc);
        files.insert(
            String::from_str(alloc, "p.json")?,
            Vec::from_slice(alloc, self.file.as_slice())?,
        )?;
        files.insert(
            String::from_str(alloc, "r.rules")?,
            Vec::from_slice(alloc, self.rules.as_slice())?,
        )?;
        files.insert(
            String::from_str(alloc, "s.saved")?,
            Vec::from_slice(alloc, self.state.as_slice())?,
        )?;
        let bad_fetches = Vec::from_slice(alloc, self.bad_fetches.as_slice())?;
        Ok(MemShelf::new(files, bad_fetches))
    }

    /// A port that gives a trace.
    pub(crate) fn port(&self, alloc: Global, trace: &[u8]) -> Result<MemPort, AllocError> {
        let grain = self.grain.max(1);
        let mut pieces = Vec::new(alloc);
        for piece in trace.chunks(grain) {
            pieces.push(Vec::from_slice(alloc, piece)?)?;
        }
        let bad_reads = Vec::from_slice(alloc, self.bad_reads.as_slice())?;
        let bad_writes = Vec::from_slice(alloc, self.bad_writes.as_slice())?;
        Ok(MemPort::new(alloc, pieces, bad_reads, bad_writes, grain))
    }

    /// The sink for what is reported.
    pub(crate) fn sink(&self, alloc: Global) -> Result<MemSink, AllocError> {
        let bad_reports = Vec::from_slice(alloc, self.bad_reports.as_slice())?;
        Ok(MemSink::new(alloc, bad_reports))
    }
}

/// The part that a word names.
fn part_of(word: &str) -> Result<Part> {
    Ok(match word {
        "read" => Part::Read,
        "write" => Part::Write,
        "fetch" => Part::Fetch,
        "report" => Part::Report,
        _ => bail!("no sort: {word}"),
    })
}

/// Adds blanks to a file until it has so many bytes.
fn fill(file: &mut Vec<u8>, length: usize) -> Result<(), AllocError> {
    for _ in file.len()..length {
        file.push(b' ')?;
    }
    Ok(())
}

fn add_line(trace: &mut Vec<u8>, line: &str) -> Result<(), AllocError> {
    trace.extend_from_slice(line.as_bytes())?;
    trace.push(b'\n')?;
    Ok(())
}

/// The words of a line, with one blank between two.
fn words_of(alloc: Global, line: &str) -> Result<Vec<String>, AllocError> {
    let mut words = Vec::new(alloc);
    for word in line.as_bytes().split(|byte| *byte == b' ') {
        words.push(word_of(alloc, text_of(word))?)?;
    }
    Ok(words)
}

fn word_of(alloc: Global, word: &str) -> Result<String, AllocError> {
    String::from_str(alloc, if word == "EMPTY" { "" } else { word })
}
