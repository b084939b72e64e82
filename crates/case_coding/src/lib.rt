// The steps that need no table: reading a block, and reading and writing a message.
#![tactic(auto)]

use block::Found;
use case_forms::Spelled;
use case_forms::messages::write_message;
use case_rooms::Ran;
use case_rooms::lent::Room;
use message::Message;
use std::alloc::{AllocError, Global};

// A step that is lent nothing changes nothing.
fn plainly(said: String) -> Ran {
    Ran { said, fault: None }
}

// Reads a block.
pub fn block_step(alloc: Global, position: u32, octets: &[u8]) -> Result<Ran, AllocError> {
    let mut said = String::new(alloc);
    match block::read_block(octets, position) {
        Ok(Some(Found { vector, place, len })) => {
            writeln!(said, "= message vector {vector} data {place} length {len}")?
        }
        Ok(None) => said.push_str("= fewer\n")?,
        Err(refusal) => writeln!(said, "= {}", Spelled(refusal))?,
    }
    Ok(plainly(said))
}

// A wrapper's contents are its data past so many octets. The number is 01's, and not taken from the library that is tested.
const FIELDS: usize = 20;

// Reads a message.
pub fn read_step(alloc: Global, vector: u8, data: &[u8]) -> Result<Ran, AllocError> {
    let mut said = String::new(alloc);
    match message::read_message(vector, data) {
        Ok(m) => write_message(&mut said, m, data.get(FIELDS..).unwrap_or(&[]))?,
        Err(refusal) => writeln!(said, "= {}", Spelled(refusal))?,
    }
    Ok(plainly(said))
}

// Writes a message into a room of so many octets.
pub fn write_step(
    alloc: Global,
    room: usize,
    m: Message,
    contents: &[u8],
) -> Result<Ran, AllocError> {
    let mut room = Room::new(alloc, room)?;
    let mut said = String::new(alloc);
    match writing::write_message(m, contents, room.lend()) {
        Ok(len) => {
            said.push_str("= wrote ")?;
            room.say(&mut said, 0, len)?;
            said.push_str("\n")?;
        }
        Err(refusal) => writeln!(said, "= {}", Spelled(refusal))?,
    }
    Ok(Ran {
        said,
        fault: room.fault("the room"),
    })
}
