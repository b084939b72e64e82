// The member's three calls over eight records by value: refusals in 01's order, the step of one record, and its octets moved.
#![tactic(auto)]

mod elapsing;
mod leaving;
mod messages;

ghost use Rattle.member.specs.Messages.{MessageAllows};
ghost use Rattle.member.specs.Elapsing.{ElapsedAllows};
ghost use Rattle.member.specs.Leaving.{LeaveAllows};

use carry::Deliveries;
pub use carry::{DELIVER, HELD};
use gap::Event;
use joining::Decision;
use record::Record;
use refusal::Refusal;
use wrapper::{Fate, Reply};

// The sizes of what is lent (01, "Room"), beside `carry`'s.
pub const REPLY: usize = sending::ROOM;

pub const CELLS: usize = 512;

const CID: usize = 16;

// The most that may pass in one call, in milliseconds.
const LONGEST: u32 = 1000;

// What a message call gives: a Join's decision, and which record its channel now has; or which record a wrapper moved, what became of it, how many held
// ones were thrown out and what is replied.
#[derive(Clone, Copy)]
pub enum Given {
    Joined {
        at: Option<usize>,
        decision: Decision,
    },
    Wrapped {
        at: usize,
        fate: Fate,
        thrown: usize,
        reply: Reply,
    },
}

// The answer of a message call. `reply` octets stand in the reply room.
// Their number and no slice, here and in `Cell` and `Left`: a slice would keep the room lent as long as the answer lives.
#[derive(Clone, Copy)]
pub struct Messaged {
    pub table: [Record; 8],
    pub given: Given,
    pub deliveries: Deliveries,
    pub reply: usize,
}

// What a record sends as time passes: `len` octets stand in its cell.
#[derive(Clone, Copy)]
pub struct Cell {
    pub event: Event,
    pub len: usize,
}

// The answer of an elapsed call.
#[derive(Clone, Copy)]
pub struct Passed {
    pub table: [Record; 8],
    pub cells: [Cell; 8],
}

// The answer of a leave call: which record was left, and how many octets stand in the reply room.
#[derive(Clone, Copy)]
pub struct Left {
    pub table: [Record; 8],
    pub at: usize,
    pub reply: usize,
}

// A message with its sender's CID and ours, its vector and its data; with a Join, `reciprocal` is the channel number that the caller will use.
pub fn message(
    table: [Record; 8],
    held: &mut [u8],
    deliver: &mut [u8],
    reply: &mut [u8],
    sender: &[u8],
    ours: &[u8],
    vector: u8,
    body: &[u8],
    reciprocal: u16,
) -> Result<Messaged, Refusal>
    ensures { MessageAllows table held.old deliver.old reply.old sender.now ours.now vector body.now reciprocal
        (record { answer = result; held = held.new; deliver = deliver.new; reply = reply.new }) }
{
    let held = held.as_mut_array().ok_or(Refusal::WrongSize)?;
    let deliver = deliver.as_mut_array().ok_or(Refusal::WrongSize)?;
    let reply = reply.as_mut_array().ok_or(Refusal::WrongSize)?;
    let sender: &[u8; CID] = sender.as_array().ok_or(Refusal::WrongSize)?;
    let ours: &[u8; CID] = ours.as_array().ok_or(Refusal::WrongSize)?;
    if !table::is_formed(table) {
        return Err(Refusal::WrongTable);
    }
    let from = message::cid_at(sender, 0);
    let own = message::cid_at(ours, 0);
    messages::take_message(
        table, held, deliver, reply, from, own, vector, body, reciprocal,
    )
}

// `ms` milliseconds pass.
pub fn elapsed(table: [Record; 8], cells: &mut [u8], ms: u32) -> Result<Passed, Refusal>
    ensures { ElapsedAllows table cells.old ms (record { answer = result; cells = cells.new }) }
{
    let cells = cells.as_mut_array().ok_or(Refusal::WrongSize)?;
    if !table::is_formed(table) {
        return Err(Refusal::WrongTable);
    }
    if LONGEST < ms {
        return Err(Refusal::TooMuchTime);
    }
    Ok(elapsing::pass_all(table, cells, ms))
}

// A request to leave the channel of this owner and number.
pub fn leave(
    table: [Record; 8],
    reply: &mut [u8],
    owner: &[u8],
    channel: u16,
    reason: u8,
) -> Result<Left, Refusal>
    ensures { LeaveAllows table reply.old owner.now channel reason (record { answer = result; reply = reply.new }) }
{
    let reply = reply.as_mut_array().ok_or(Refusal::WrongSize)?;
    let owner: &[u8; CID] = owner.as_array().ok_or(Refusal::WrongSize)?;
    if !table::is_formed(table) {
        return Err(Refusal::WrongTable);
    }
    leaving::take_leave(table, reply, message::cid_at(owner, 0), channel, reason)
}
