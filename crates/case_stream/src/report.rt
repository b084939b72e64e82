// The report of each case: whether it passed, and if not, at which line it failed and why.
use crate::judging::Given;
use crate::output::Output;
use case_text::is_blank;
use std::alloc::{AllocError, Global};
use std::fmt::Display;
use std::io;
use std::io::Write;

// A line has at most this many characters.
pub const LINE: usize = 200000;

// Of a word that cannot be read this much is shown.
const SHOWN: usize = 64;

// How the case stands.
#[derive(Drop)]
pub(crate) enum Stage {
    // None is open yet: lines before the first `case` are a case with no name.
    Closed,
    Open,
    // A step stands above, which gave this.
    Stepped(Given),
    // It has failed, so that the rest of it is passed over.
    Failed,
}

#[derive(Drop)]
pub struct Report {
    pub output: Output,
    // The number of the line.
    pub(crate) line: u64,
    // The name of the case.
    name: Vec<u8>,
    pub(crate) stage: Stage,
    passed: u64,
    failed: u64,
}

impl Report {
    pub fn new(alloc: Global, output: Output) -> Report {
        Report {
            output,
            line: 0,
            name: Vec::new(alloc),
            stage: Stage::Closed,
            passed: 0,
            failed: 0,
        }
    }

    pub(crate) fn has_failed(&self) -> bool {
        matches!(&self.stage, Stage::Failed)
    }

    // Every line has a number, also one that is too long.
    pub fn count_line(&mut self) {
        self.line = self.line.saturating_add(1);
    }

    // Another line stands in the file, which expects nothing: whether its case goes on with it.
    pub fn begin_line(&mut self, line: &[u8]) -> io::Result<bool> {
        self.end_step()?;
        self.output.keep(line)?;
        Ok(!self.has_failed())
    }

    // A case begins.
    pub fn open_case(&mut self, name: &[u8]) -> Result<(), AllocError> {
        self.stage = Stage::Open;
        self.name.clear();
        self.name.extend_from_slice(name)
    }

    // A report's head: how the case ended, and its name.
    fn tell_case(&mut self, label: &[u8]) -> io::Result<()> {
        self.output.write_all(label)?;
        if self.name.is_empty() {
            return self.output.write_all(b"(no name)");
        }
        self.output.write_all(self.name.as_slice())
    }

    // The open case passes, unless it has failed.
    pub fn close_case(&mut self) -> io::Result<()> {
        if matches!(&self.stage, Stage::Closed) {
            return Ok(());
        }
        self.end_step()?;
        if self.has_failed() {
            return Ok(());
        }
        self.passed = self.passed.saturating_add(1);
        if self.output.shows() {
            return Ok(());
        }
        self.tell_case(b"ok   ")?;
        self.output.write_all(b"\n")
    }

    // The case fails at a line: what follows says why.
    fn fail(&mut self, line: u64) -> io::Result<()> {
        self.stage = Stage::Failed;
        self.failed = self.failed.saturating_add(1);
        self.tell_case(b"FAIL ")?;
        writeln!(self.output, ", line {line}")
    }

    fn tell_line(&mut self, label: &[u8], s: &[u8]) -> io::Result<()> {
        self.output.write_all(label)?;
        self.output.write_all(s)?;
        self.output.write_all(b"\n")
    }

    // The case fails at this line, for this reason.
    pub fn fail_for<D: Display + Drop>(&mut self, reason: D) -> io::Result<()> {
        self.fail(self.line)?;
        writeln!(self.output, "     {reason}")
    }

    // The case fails at this line, which is too long.
    pub fn fail_long(&mut self) -> io::Result<()> {
        self.fail(self.line)?;
        writeln!(
            self.output,
            "     expected: a line of at most {LINE} characters"
        )?;
        writeln!(self.output, "     given:    a longer one")
    }

    // The case fails at a line, with what was expected there and what was given.
    pub(crate) fn fail_with(&mut self, line: u64, expected: &[u8], given: &[u8]) -> io::Result<()> {
        self.fail(line)?;
        self.tell_line(b"     expected: ", expected)?;
        self.tell_line(b"     given:    ", given)
    }

    // A word, or its first characters.
    fn tell_word(&mut self, word: &[u8]) -> io::Result<()> {
        match word.split_at_checked(SHOWN) {
            _ if word.is_empty() => self.output.write_all(b"the end of the line"),
            Some((shown, [_, ..])) => {
                self.output.write_all(shown)?;
                self.output.write_all(b"..")
            }
            _ => self.output.write_all(word),
        }
    }

    // This line cannot be read from `at` on: the word that stands there is shown, or its first characters.
    pub fn fail_reading<D: Display + Drop>(
        &mut self,
        line: &[u8],
        at: usize,
        expected: D,
    ) -> io::Result<()> {
        self.fail(self.line)?;
        write!(self.output, "     expected: {expected}\n     given:    ")?;
        self.tell_word(word_at(line, at))?;
        let character = at.saturating_add(1);
        writeln!(self.output, ", at character {character}")
    }

    // The tally, which `show` has not, ends the report.
    pub fn tally(&mut self) -> io::Result<()> {
        if !self.output.shows() {
            writeln!(
                self.output,
                "{} passed, {} failed",
                self.passed, self.failed
            )?;
        }
        self.output.flush()
    }
}

// The word that stands at a place of a line.
fn word_at(line: &[u8], at: usize) -> &[u8] {
    match line.get(at..) {
        Some(rest) => rest.split(|b| is_blank(*b)).next().unwrap_or(b""),
        None => b"",
    }
}
