// What is written: reports, or with `show` the file itself. Then reports go to standard error, so that standard output stays a case file.
use std::alloc::Global;
use std::io;
use std::io::Write;
use std::rt::{Stderr, Stdout};

// So many octets may wait to be written.
const MOST: usize = 65536;

// What is written to it is a piece of a report.
#[derive(Drop)]
pub struct Output {
    out: Stdout,
    err: Stderr,
    // Whether the file itself is written.
    show: bool,
    // What waits for standard output. A `BufWriter` would write it when it is dropped, also after an error.
    waiting: Vec<u8>,
}

impl Output {
    pub fn new(alloc: Global, out: Stdout, err: Stderr, show: bool) -> Output {
        Output {
            out,
            err,
            show,
            waiting: Vec::new(alloc),
        }
    }

    pub fn shows(&self) -> bool {
        self.show
    }

    // Lets s wait. If it has no room, what waits is written first, and so is s if it is too long to wait.
    fn emit(&mut self, s: &[u8]) -> io::Result<()> {
        if MOST < self.waiting.len().saturating_add(s.len()) {
            self.flush()?;
        }
        if MOST < s.len() {
            return Print::write_all(&self.out, s);
        }
        self.waiting.extend_from_slice(s)?;
        Ok(())
    }

    // A part of the file as it stands there.
    pub fn pass_on(&mut self, s: &[u8]) -> io::Result<()> {
        if self.show { self.emit(s) } else { Ok(()) }
    }

    // A line as it stands in the file.
    pub fn keep(&mut self, line: &[u8]) -> io::Result<()> {
        self.pass_on(line)?;
        self.pass_on(b"\n")
    }
}

impl Write for Output {
    fn write(&mut self, s: &[u8]) -> io::Result<usize> {
        if self.show {
            Print::write_all(&self.err, s)?;
        } else {
            self.emit(s)?;
        }
        Ok(s.len())
    }

    fn flush(&mut self) -> io::Result<()> {
        Print::write_all(&self.out, self.waiting.as_slice())?;
        self.waiting.clear();
        Ok(())
    }
}
