// What a step gave, and the lines under it that say what it must give.
use crate::report::{Report, Stage};
use case_text::{is_blank, is_same_line, trim};
use std::{io, mem};

// What a step gave: its lines, and how many octets of them are left to be compared; and the number of the last `=` line, if there was one.
#[derive(Drop)]
pub struct Given {
    lines: String,
    // A length and no `&str`, since a struct cannot borrow from its own `String`.
    left: usize,
    last: Option<u64>,
}

impl Given {
    // The next line to be compared, and those behind it.
    fn next(&self) -> Option<(&str, &str)> {
        let at = self.lines.len().saturating_sub(self.left);
        self.lines.as_str().get(at..)?.split_once('\n')
    }
}

// The words of a line after its `=`.
fn behind_equals(line: &[u8]) -> &[u8] {
    line.strip_prefix(b"=").unwrap_or(line)
}

impl Report {
    // A step gave these lines: with `show` they go under it.
    pub fn take_step(&mut self, lines: String) -> io::Result<()> {
        self.output.pass_on(lines.as_bytes())?;
        self.stage = Stage::Stepped(Given {
            left: lines.len(),
            lines,
            last: None,
        });
        Ok(())
    }

    // The lines under the step above are over, and a case is open.
    pub(crate) fn end_step(&mut self) -> io::Result<()> {
        match mem::replace(&mut self.stage, Stage::Open) {
            Stage::Stepped(given) => self.close_step(&given),
            Stage::Failed => {
                self.stage = Stage::Failed;
                Ok(())
            }
            Stage::Closed | Stage::Open => Ok(()),
        }
    }

    // If there were lines under a step, it must have given no more than they say.
    fn close_step(&mut self, given: &Given) -> io::Result<()> {
        match (given.last, given.next()) {
            (Some(line), Some((more, _))) => self.fail_with(line, b"nothing more", more.as_bytes()),
            _ => Ok(()),
        }
    }

    // A line `= ..`. With `show` it is left out, as what the step gives now was written under the step.
    pub fn take_expected(&mut self, line: &[u8]) -> io::Result<()> {
        match mem::replace(&mut self.stage, Stage::Failed) {
            Stage::Failed => self.output.keep(line),
            Stage::Stepped(given) if self.output.shows() => {
                self.stage = Stage::Stepped(given);
                Ok(())
            }
            Stage::Stepped(given) => self.compare(given, trim(line)),
            Stage::Closed | Stage::Open => {
                self.output.keep(line)?;
                let at = line.iter().position(|b| !is_blank(*b)).unwrap_or(0);
                self.fail_reading(line, at, "a step above this line")
            }
        }
    }

    // Holds the next line that the step gave against a line.
    fn compare(&mut self, given: Given, line: &[u8]) -> io::Result<()> {
        match given.next() {
            Some((next, rest))
                if is_same_line(behind_equals(next.as_bytes()), behind_equals(line)) => {
                self.stage = Stage::Stepped(Given {
                    left: rest.len(),
                    last: Some(self.line),
                    ..given
                });
                Ok(())
            }
            Some((next, _)) => self.fail_with(self.line, line, next.as_bytes()),
            None => self.fail_with(self.line, line, b"nothing more"),
        }
    }
}
