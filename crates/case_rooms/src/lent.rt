// The octets that a step is lent: what lies in a room before it, and which octets it has changed.
use crate::Fault;
use case_forms::lines::Piece;
use case_text::Hex;
use std::alloc::{AllocError, Global};

// Every octet of a room before a step.
const FILL: u8 = 170;

// The most octets that a piece is lent with.
const MOST: usize = 65536;

// A place and a delivery's cell have this many octets. This size and those below are 01's, and not taken from the library that is tested.
pub const PLACE: usize = 1454;

// The cell of a record's NAK or Leaving has this many.
pub const CELL: usize = 64;

// How much of each piece is lent to the next step.
#[derive(Clone, Copy)]
pub struct Lent {
    pub table: usize,
    pub held: usize,
    pub deliver: usize,
    pub reply: usize,
    pub cells: usize,
}

// What the paper asks for: eight records, their four places each, five deliveries, and 64 octets for a reply and for each record's cell.
pub const RIGHT: Lent = Lent {
    table: 8,
    held: 46528,
    deliver: 7270,
    reply: 64,
    cells: 512,
};

impl Lent {
    pub fn set(&mut self, piece: Piece, n: usize) {
        match piece {
            Piece::Table => self.table = n,
            Piece::Held => self.held = n,
            Piece::Deliver => self.deliver = n,
            Piece::Reply => self.reply = n,
            Piece::Cells => self.cells = n,
        }
    }
}

// A room of octets that a step may write.
#[derive(Drop)]
pub struct Room {
    octets: Vec<u8>,
}

impl Room {
    // A room of n octets.
    pub fn new(alloc: Global, n: usize) -> Result<Room, AllocError> {
        let octets = vec![in alloc; FILL; n]?;
        Ok(Room { octets })
    }

    pub fn lend(&mut self) -> &mut [u8] {
        self.octets.as_mut_slice()
    }

    // Says the octets that an answer names. They are as before the step then.
    pub fn say(&mut self, said: &mut String, from: usize, len: usize) -> Result<(), AllocError> {
        let to = from.saturating_add(len);
        let Some(octets) = self.octets.as_mut_slice().get_mut(from..to) else {
            return Ok(());
        };
        write!(said, "{}", Hex(octets))?;
        octets.fill(FILL);
        Ok(())
    }

    // Whether no octet was changed. 64 are compared at once, which is much faster.
    fn is_filled(&self) -> bool {
        let (parts, rest) = self.octets.as_slice().as_chunks::<64>();
        parts.iter().all(|part| *part == [FILL; 64]) && rest.iter().all(|b| *b == FILL)
    }

    // The first octet that was changed. A report calls the room `piece`.
    pub fn fault(&self, piece: &'static str) -> Option<Fault> {
        if self.is_filled() {
            return None;
        }
        let at = self.octets.iter().position(|b| *b != FILL)?;
        Some(Fault { at, piece })
    }
}

// The held octets, and what they were before a step.
#[derive(Drop)]
pub struct Held {
    octets: Vec<u8>,
    before: Vec<u8>,
}

// Where the octets of a place begin: there are eight records of four places.
fn start_of(record: usize, place: usize) -> usize {
    (record % 8 * 4 + place % 4) * PLACE
}

// Copies octets to a place of a room, if they fit there.
fn copy_to(room: &mut [u8], start: usize, octets: &[u8]) {
    if let Some(part) = room.get_mut(start..start.saturating_add(octets.len())) {
        part.copy_from_slice(octets);
    }
}

impl Held {
    // All are 0, and were.
    pub fn new(alloc: Global) -> Result<Held, AllocError> {
        Ok(Held {
            octets: vec![in alloc; 0; MOST]?,
            before: vec![in alloc; 0; MOST]?,
        })
    }

    // The first n.
    pub fn lend(&mut self, n: usize) -> &mut [u8] {
        let n = n.min(self.octets.len());
        &mut self.octets[..n]
    }

    // Stores contents into a place, as many as fit.
    pub fn store(&mut self, record: usize, place: usize, contents: &[u8]) {
        let start = start_of(record, place);
        let stored = &contents[..contents.len().min(PLACE)];
        copy_to(self.octets.as_mut_slice(), start, stored);
        copy_to(self.before.as_mut_slice(), start, stored);
    }

    // The first octets of a place may be others than before.
    pub fn allow(&mut self, record: usize, place: usize, len: usize) {
        let start = start_of(record, place);
        if let Some(octets) = self.octets.as_slice().get(start..start.saturating_add(len)) {
            copy_to(self.before.as_mut_slice(), start, octets);
        }
    }

    // The first of the n octets that is not what it was. They are compared whole first, which is much faster.
    pub fn fault(&self, n: usize) -> Option<Fault> {
        let now = self.octets.as_slice().get(..n)?;
        let before = self.before.as_slice().get(..n)?;
        if now == before {
            return None;
        }
        let at = now.iter().zip(before).position(|(a, b)| a != b)?;
        Some(Fault {
            at,
            piece: "the held octets",
        })
    }
}
