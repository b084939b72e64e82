// The library as a C receiver sees it: reading blocks and messages, and writing messages, on numbers and octets alone. An answer is a struct
// of numbers that begins with its outcome: 0, a refusal's number, or one of the two further words below. The crate sdt_c exports these calls
// to C, and include/sdt.h says the same in C.
#![tactic(auto)]

ghost use Rattle.std.specs.Prelude.{◌≡◌};
ghost use Rattle.sdt.specs.Blocks.{place_of, block_answer, open_answer};
ghost use Rattle.sdt.specs.Messages.{message_answer, write_answer};
ghost use Rattle.sdt.specs.Allowed.{SdtReadBlockAllows, SdtOpenBlockAllows, SdtNextMessageAllows, SdtReadMessageAllows, SdtWriteMessageAllows};

use block::{Astray, Cursor, Found, NOTHING, Opened, START};
use message::Message;
use plain::Plain;
use refusal::Refusal;

// Nothing is refused.
const OK: u32 = 0;

// The block has no message at this position, or none is left.
const FEWER: u32 = 100;

// The cursor cannot be one of this block's.
const ASTRAY: u32 = 101;

// What reading one message of a block answers; `bad` is the place of the first malformed PDU.
#[repr(C)]
#[derive(Clone, Copy)]
pub struct BlockAnswer {
    pub outcome: u32,
    pub found: Found,
    pub bad: usize,
}

#[repr(C)]
#[derive(Clone, Copy)]
pub struct OpenAnswer {
    pub outcome: u32,
    pub count: usize,
    pub cursor: Cursor,
    pub bad: usize,
}

// What reading on answers; the cursor stays as it was where there is no message.
#[repr(C)]
#[derive(Clone, Copy)]
pub struct NextAnswer {
    pub outcome: u32,
    pub found: Found,
    pub cursor: Cursor,
}

#[repr(C)]
#[derive(Clone, Copy)]
pub struct MessageAnswer {
    pub outcome: u32,
    pub message: Plain,
}

#[repr(C)]
#[derive(Clone, Copy)]
pub struct WriteAnswer {
    pub outcome: u32,
    pub length: usize,
}

// The place that is answered beside a refusal's number: that of the first malformed PDU, and with any other refusal 0.
fn place_of(r: Refusal) -> usize
    ensures { result ≡ place_of r }
{
    match r {
        Refusal::Malformed(at) => at,
        _ => 0,
    }
}

impl From<Result<Option<Found>, Refusal>> for BlockAnswer {
    ghost from_gives = { λ read answer. answer ≡ block_answer read };

    #[tactic(auto, unfolding(crate::specs::Blocks::block_answer))]
    fn from(read: Result<Option<Found>, Refusal>) -> BlockAnswer {
        match read {
            Ok(Some(found)) => BlockAnswer {
                outcome: OK,
                found,
                bad: 0,
            },
            Ok(None) => BlockAnswer {
                outcome: FEWER,
                found: NOTHING,
                bad: 0,
            },
            Err(r) => BlockAnswer {
                outcome: u32::from(u8::from(r)),
                found: NOTHING,
                bad: place_of(r),
            },
        }
    }
}

impl From<Result<Opened, Refusal>> for OpenAnswer {
    ghost from_gives = { λ opened answer. answer ≡ open_answer opened };

    #[tactic(auto, unfolding(crate::specs::Blocks::open_answer))]
    fn from(opened: Result<Opened, Refusal>) -> OpenAnswer {
        match opened {
            Ok(Opened { count, cursor }) => OpenAnswer {
                outcome: OK,
                count,
                cursor,
                bad: 0,
            },
            Err(r) => OpenAnswer {
                outcome: u32::from(u8::from(r)),
                count: 0,
                cursor: START,
                bad: place_of(r),
            },
        }
    }
}

impl From<Result<usize, Refusal>> for WriteAnswer {
    ghost from_gives = { λ wrote answer. answer ≡ write_answer wrote };

    #[tactic(auto, unfolding(crate::specs::Messages::write_answer))]
    fn from(wrote: Result<usize, Refusal>) -> WriteAnswer {
        match wrote {
            Ok(length) => WriteAnswer {
                outcome: OK,
                length,
            },
            Err(r) => WriteAnswer {
                outcome: u32::from(u8::from(r)),
                length: 0,
            },
        }
    }
}

// Reads the message of a block at `position`, counted from 0.
pub fn sdt_read_block(block: &[u8], position: u32) -> BlockAnswer
    ensures { SdtReadBlockAllows block.now position result }
{
    BlockAnswer::from(block::read_block(block, position))
}

// Opens a block: how many messages it has, and the cursor before the first.
pub fn sdt_open_block(block: &[u8]) -> OpenAnswer
    ensures { SdtOpenBlockAllows block.now result }
{
    OpenAnswer::from(block::open_block(block))
}

// Reads the message behind a cursor. The answer is no From of the library's: it has the cursor that was given where there is no message.
#[tactic(auto, unfolding(crate::specs::Blocks::next_answer))]
pub fn sdt_next_message(block: &[u8], cursor: Cursor) -> NextAnswer
    ensures { SdtNextMessageAllows block.now cursor result }
{
    match block::next_message(block, cursor) {
        Ok(Some(following)) => NextAnswer {
            outcome: OK,
            found: following.found,
            cursor: following.cursor,
        },
        Ok(None) => NextAnswer {
            outcome: FEWER,
            found: NOTHING,
            cursor,
        },
        Err(Astray) => NextAnswer {
            outcome: ASTRAY,
            found: NOTHING,
            cursor,
        },
    }
}

// Reads the message of this vector and data. The answer is made here and a refusal returns by itself: by From, as the others are made, reading takes
// 1.33 times the instructions of plain C, and by one match without `return` 1.37, over the limit of 1.3 (bench/run).
#[inline(always)]
#[tactic(auto, unfolding(crate::specs::Messages::message_answer))]
pub fn sdt_read_message(vector: u8, body: &[u8]) -> MessageAnswer
    ensures { SdtReadMessageAllows vector body.now result }
{
    let message = match message::read_message(vector, body) {
        Ok(m) => Plain::from(m),
        Err(r) => {
            return MessageAnswer {
                outcome: u32::from(u8::from(r)),
                message: plain::EMPTY,
            };
        }
    };
    MessageAnswer {
        outcome: OK,
        message,
    }
}

// Writes a message at the front of the room, with contents if it is a wrapper.
#[inline(always)]
#[tactic(auto, unfolding(crate::specs::Messages::written_answer, crate::specs::Messages::written_room))]
pub fn sdt_write_message(m: Plain, contents: &[u8], room: &mut [u8]) -> WriteAnswer
    ensures { SdtWriteMessageAllows m contents.now room.old (record { answer = result; room = room.new }) }
{
    match Message::try_from(m) {
        Ok(message) => WriteAnswer::from(writing::write_message(message, contents, room)),
        Err(refusal) => WriteAnswer::from(Err(refusal)),
    }
}
