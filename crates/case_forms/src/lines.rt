// What each line of a case file says, but for `case`, `=` and comments.
use crate::misread::{Misread, Wanted};
use crate::reading::{Reader, Value};
use message::Message;
use record::{Place, Record};
use std::alloc::Global;

// What a call may be lent.
#[derive(Clone, Copy)]
pub enum Piece {
    Table,
    Held,
    Deliver,
    Reply,
    Cells,
}

// A line that sets something up for the steps that follow, or that is a step.
#[derive(Drop)]
pub enum Line {
    Ours(Vec<u8>),
    // Sets all of a record but its places.
    Record(usize, Record),
    Free(usize),
    Place(SetPlace),
    Lend(Piece, usize),
    Step(Step),
}

// Sets a place of a record, and its octets.
#[derive(Drop)]
pub struct SetPlace {
    pub record: usize,
    pub place: usize,
    pub numbers: Place,
    pub contents: Vec<u8>,
}

// A step: what of the library is called, and with which values.
#[derive(Drop)]
pub enum Step {
    Message {
        sender: Vec<u8>,
        vector: u8,
        reciprocal: u16,
        data: Vec<u8>,
    },
    Elapsed(u32),
    Leave {
        owner: Vec<u8>,
        channel: u16,
        reason: u8,
    },
    Block {
        position: u32,
        octets: Vec<u8>,
    },
    Read {
        vector: u8,
        data: Vec<u8>,
    },
    Write {
        room: usize,
        message: Message,
        contents: Vec<u8>,
    },
}

impl Step {
    // Whether it is a call over the table.
    pub fn takes_table(&self) -> bool {
        matches!(
            self,
            Step::Message { .. } | Step::Elapsed(_) | Step::Leave { .. }
        )
    }
}

// The most octets of our CID: a case may be about another length than 16.
const OURS_MOST: usize = 256;

impl Value for Piece {
    fn read(r: &mut Reader<'_>) -> Result<Piece, Misread> {
        let at = r.at();
        match r.name() {
            "table" => Ok(Piece::Table),
            "held" => Ok(Piece::Held),
            "deliver" => Ok(Piece::Deliver),
            "reply" => Ok(Piece::Reply),
            "cells" => Ok(Piece::Cells),
            _ => Err(Misread::At(at, Wanted::Piece)),
        }
    }
}

impl Value for SetPlace {
    fn read(r: &mut Reader<'_>) -> Result<SetPlace, Misread> {
        let record = r.index(7)?;
        let place = r.index(3)?;
        let total = r.field("total")?;
        let reliable = r.field("reliable")?;
        r.literal("contents")?;
        let contents = r.octets_up_to(usize::from(u16::MAX))?;
        Ok(SetPlace {
            record,
            place,
            numbers: Place {
                used: true,
                total,
                reliable,
                len: contents.len() as u16,
            },
            contents,
        })
    }
}

// Only a wrapper has contents.
fn read_write(r: &mut Reader<'_>) -> Result<Step, Misread> {
    let room = r.value::<u16>()?.into();
    let message = r.value()?;
    let contents = match message {
        Message::ReliableWrapper(_) | Message::UnreliableWrapper(_) => r.field("contents")?,
        _ => Vec::new(r.alloc),
    };
    Ok(Step::Write {
        room,
        message,
        contents,
    })
}

impl Value for Line {
    fn read(r: &mut Reader<'_>) -> Result<Line, Misread> {
        let at = r.at();
        match r.name() {
            "ours" => Ok(Line::Ours(r.octets_up_to(OURS_MOST)?)),
            "record" => Ok(Line::Record(r.index(7)?, r.value()?)),
            "free" => Ok(Line::Free(r.index(7)?)),
            "place" => Ok(Line::Place(r.value()?)),
            "lend" => Ok(Line::Lend(r.value()?, r.value::<u16>()?.into())),
            "message" => Ok(Line::Step(Step::Message {
                sender: r.value()?,
                vector: r.value()?,
                reciprocal: r.value()?,
                data: r.value()?,
            })),
            "elapsed" => Ok(Line::Step(Step::Elapsed(r.value()?))),
            "leave" => Ok(Line::Step(Step::Leave {
                owner: r.value()?,
                channel: r.value()?,
                reason: r.value()?,
            })),
            "block" => Ok(Line::Step(Step::Block {
                position: r.value()?,
                octets: r.value()?,
            })),
            "read" => Ok(Line::Step(Step::Read {
                vector: r.value()?,
                data: r.value()?,
            })),
            "write" => Ok(Line::Step(read_write(r)?)),
            _ => Err(Misread::At(at, Wanted::Line)),
        }
    }
}

// Reads a line whole.
pub fn read_line(alloc: Global, text: &[u8]) -> Result<Line, Misread> {
    let mut r = Reader::of(alloc, text);
    let line = r.value()?;
    r.end()?;
    Ok(line)
}
