// What C links: each call of `sdt` under its own name, with the same promise. include/sdt.h says in C what these calls are. The three on blocks only
// pass on, since C's names are exported here and nowhere below. A message is read and written by a call for its kind alone: the compiler then
// makes of each what that kind needs, and carries no fields of the others through it. With one call for all kinds, reading takes 2.25 times the
// instructions of plain C and writing 2.07, over the limits of 1.3 and 1.5 (bench/run).
#![tactic(auto)]

ghost use Rattle.std.specs.Prelude.{◌≡◌};
ghost use Rattle.sdt.specs.Allowed.{SdtReadBlockAllows, SdtOpenBlockAllows, SdtNextMessageAllows, SdtReadMessageAllows, SdtWriteMessageAllows};

use block::Cursor;
use plain::Plain;
use sdt::{BlockAnswer, MessageAnswer, NextAnswer, OpenAnswer, WriteAnswer};

// Reads the message of a block at `position`, counted from 0.
#[unsafe(no_mangle)]
pub extern "C" fn sdt_read_block(block: &[u8], position: u32) -> BlockAnswer
    ensures { SdtReadBlockAllows block.now position result }
{
    sdt::sdt_read_block(block, position)
}

// Opens a block: how many messages it has, and the cursor before the first.
#[unsafe(no_mangle)]
pub extern "C" fn sdt_open_block(block: &[u8]) -> OpenAnswer
    ensures { SdtOpenBlockAllows block.now result }
{
    sdt::sdt_open_block(block)
}

// Reads the message behind a cursor.
#[unsafe(no_mangle)]
pub extern "C" fn sdt_next_message(block: &[u8], cursor: Cursor) -> NextAnswer
    ensures { SdtNextMessageAllows block.now cursor result }
{
    sdt::sdt_next_message(block, cursor)
}

// Reads the message of this vector and data. Each arm returns by itself: without `return` reading takes 1.94 times the instructions of plain C, over
// the limit of 1.3 (bench/run).
#[unsafe(no_mangle)]
pub extern "C" fn sdt_read_message(vector: u8, body: &[u8]) -> MessageAnswer
    ensures { SdtReadMessageAllows vector body.now result }
{
    match vector {
        message::RELIABLE_WRAPPER => {
            return sdt::sdt_read_message(message::RELIABLE_WRAPPER, body);
        }
        message::UNRELIABLE_WRAPPER => {
            return sdt::sdt_read_message(message::UNRELIABLE_WRAPPER, body);
        }
        message::JOIN => return sdt::sdt_read_message(message::JOIN, body),
        message::JOIN_REFUSE => return sdt::sdt_read_message(message::JOIN_REFUSE, body),
        message::JOIN_ACCEPT => return sdt::sdt_read_message(message::JOIN_ACCEPT, body),
        message::LEAVING => return sdt::sdt_read_message(message::LEAVING, body),
        message::ACK => return sdt::sdt_read_message(message::ACK, body),
        message::NAK => return sdt::sdt_read_message(message::NAK, body),
        message::GET_SESSIONS => return sdt::sdt_read_message(message::GET_SESSIONS, body),
        _ => return sdt::sdt_read_message(vector, body),
    }
}

// Writes a message whose vector the caller names.
#[inline(always)]
fn write_as(vector: u8, m: Plain, contents: &[u8], room: &mut [u8]) -> WriteAnswer
    requires { m.vector ≡ vector }
    ensures { SdtWriteMessageAllows m contents.now room.old (record { answer = result; room = room.new }) }
{
    sdt::sdt_write_message(Plain { vector, ..m }, contents, room)
}

// Writes a message at the front of the room, with contents if it is a wrapper.
#[unsafe(no_mangle)]
pub extern "C" fn sdt_write_message(m: Plain, contents: &[u8], room: &mut [u8]) -> WriteAnswer
    ensures { SdtWriteMessageAllows m contents.now room.old (record { answer = result; room = room.new }) }
{
    match m.vector {
        message::RELIABLE_WRAPPER => write_as(message::RELIABLE_WRAPPER, m, contents, room),
        message::UNRELIABLE_WRAPPER => write_as(message::UNRELIABLE_WRAPPER, m, contents, room),
        message::JOIN => write_as(message::JOIN, m, contents, room),
        message::JOIN_REFUSE => write_as(message::JOIN_REFUSE, m, contents, room),
        message::JOIN_ACCEPT => write_as(message::JOIN_ACCEPT, m, contents, room),
        message::LEAVING => write_as(message::LEAVING, m, contents, room),
        message::ACK => write_as(message::ACK, m, contents, room),
        message::NAK => write_as(message::NAK, m, contents, room),
        message::GET_SESSIONS => write_as(message::GET_SESSIONS, m, contents, room),
        _ => sdt::sdt_write_message(m, contents, room),
    }
}
