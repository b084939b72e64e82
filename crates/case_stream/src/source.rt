// The input cut into lines as it comes: each turn finds a line, or a piece of one that is too long.
use crate::report::LINE;
use std::alloc::Global;
use std::io::{BufRead, BufReader, Read};
use std::{io, mem};

// One read asks for this many octets.
const CHUNK: usize = 65536;

// What a turn found: a line without its end, a piece of one that is too long, or the last piece of such a one.
#[derive(Clone, Copy)]
pub enum Turn<'a> {
    Line(&'a [u8]),
    Piece(&'a [u8]),
    LongEnd(&'a [u8]),
}

// `found` is what the last turn found, and what the next one has read so far.
#[derive(Drop)]
pub struct Source<R> {
    input: BufReader<R>,
    found: Vec<u8>,
    // Whether pieces of the line were found before.
    long: bool,
    // Whether the input has no more. A terminal is not asked again.
    ended: bool,
}

impl<R: Read + Drop> Source<R> {
    pub fn new(alloc: Global, input: R) -> io::Result<Source<R>> {
        Ok(Source {
            input: BufReader::with_capacity(alloc, CHUNK, input)?,
            found: Vec::new(alloc),
            long: false,
            ended: false,
        })
    }

    // One turn, or none at the end of the input.
    pub fn next_turn(&mut self) -> io::Result<Option<Turn<'_>>> {
        self.found.clear();
        // A loop that runs until its input ends has no measure, so it is a counted one.
        for _ in 0..u64::MAX {
            if self.read_on()? {
                return Ok(Some(self.line()));
            }
            if self.ended {
                break;
            }
            if LINE < self.found.len() {
                self.long = true;
                return Ok(Some(Turn::Piece(self.found.as_slice())));
            }
        }
        // The last line may have no end of its own.
        if self.found.is_empty() && !self.long {
            return Ok(None);
        }
        Ok(Some(self.line()))
    }

    // Takes what is read up to the end of the line: whether it was there.
    fn read_on(&mut self) -> io::Result<bool> {
        if self.ended {
            return Ok(false);
        }
        let read = self.input.fill_buf()?;
        let Some(end) = read.iter().position(|b| *b == b'\n') else {
            self.ended = read.is_empty();
            self.found.extend_from_slice(read)?;
            let count = read.len();
            self.input.consume(count);
            return Ok(false);
        };
        self.found.extend_from_slice(&read[..end])?;
        self.input.consume(end + 1);
        Ok(true)
    }

    // The line that was found, or the end of one that is too long.
    fn line(&mut self) -> Turn<'_> {
        let long = mem::replace(&mut self.long, false) || LINE < self.found.len();
        let line = self.found.as_slice();
        if long {
            Turn::LongEnd(line)
        } else {
            Turn::Line(line)
        }
    }
}
