// A leave call (specs/Leaving): the record that has the channel is freed, and its Leaving goes into the reply room.
ghost use Rattle.std.specs.Prelude.{◌≡◌, ◌<◌, Ok};
ghost use Rattle.table.specs.Table.{found};
ghost use Rattle.member.specs.Leaving.{departing, leave_for, LeaveEndsAs};

use crate::{Left, REPLY};
use message::Cid;
use record::Record;
use refusal::Refusal;

// The record `at` is left.
fn depart(table: [Record; 8], reply: &mut [u8; REPLY], at: usize, reason: u8) -> Left
    requires { at < 8 }
    ensures { LeaveEndsAs (departing table at reason) reply.old (record { answer = Ok result; reply = reply.new }) }
{
    let r = table[at];
    let mut after = table;
    after[at] = r.freed();
    Left {
        table: after,
        at,
        reply: sending::put_leaving(reply, r.terms, r.reliable, reason),
    }
}

// Refusals 6 and 10 of a leave call.
// The reason stays a number: any octet may be asked for, `leave_for` judges it (refusal 10), and `departing` takes it as it came.
pub fn take_leave(
    table: [Record; 8],
    reply: &mut [u8; REPLY],
    owner: Cid,
    channel: u16,
    reason: u8,
) -> Result<Left, Refusal>
    ensures { LeaveEndsAs (leave_for table reason (found owner channel table)) reply.old (record { answer = result; reply = reply.new }) }
{
    let at = table::find(table, owner, channel).ok_or(Refusal::NoRecord)?;
    if !record::is_leaving_reason(reason) {
        return Err(Refusal::WrongReason);
    }
    Ok(depart(table, reply, at, reason))
}
