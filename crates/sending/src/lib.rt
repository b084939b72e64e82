// What a member sends, written into lent rooms: the replies of a wrapper's step and of a Join, and what a channel sends as time passes or as it is left.
#![tactic(auto)]

ghost use Rattle.std.specs.Prelude.{◌≡◌, true, ◌≤◌, length};
ghost use Rattle.writing.specs.Writing.{has_form};
ghost use Rattle.joining.specs.Replies.{departure};
ghost use Rattle.sending.specs.Sent.{Put, sent_of, reply_of, event_of, welcome_of, join_reply_of};

use counter::Reliable;
use gap::Event;
use joining::Decision;
use message::{Cid, Join, Message};
use record::Terms;
use wrapper::Reply;

// The octets of a reply room, and of a record's cell.
pub const ROOM: usize = 64;

// Writes a message that has a form and fits at the front of a room, and answers how many octets it takes.
fn put_message(room: &mut [u8], m: Message) -> usize
    requires { (has_form m ≡ true) × (length (sent_of m) ≤ length room.old) }
    ensures { Put (sent_of m) result room.old room.new }
{
    writing::write_message(m, b"", room).unwrap()
}

// A Leaving. Its reason is a number, as in `departure` and `departing`: a leave call may ask for any octet, and refusal 10 is decided before.
// The room is a slice that is long enough, here and in what follows, and no array of `ROOM`: `put_join_reply` takes any such room, and an array would ask more.
pub fn put_leaving(room: &mut [u8], terms: Terms, reliable: Reliable, reason: u8) -> usize
    requires { 64 ≤ length room.old }
    ensures { Put (sent_of (departure terms reliable reason)) result room.old room.new }
{
    put_message(room, joining::departure_of(terms, reliable, reason))
}

// A new member's Join Accept, followed by an ACK of the Join's reliable number.
fn put_welcome(room: &mut [u8], owner: Cid, j: Join, reciprocal: u16) -> usize
    requires { 64 ≤ length room.old }
    ensures { Put (welcome_of owner j reciprocal) result room.old room.new }
{
    let accept = joining::acceptance_of(owner, j, j.reliable, reciprocal);
    let accepted = put_message(room, accept);
    let acked = put_message(&mut room[accepted..], Message::Ack(j.reliable));
    accepted + acked
}

// What a wrapper's step replies.
#[tactic(auto, using(octets::proofs::Writes::splice_nothing), unfolding(crate::specs::Sent::reply_of))]
pub fn put_reply(room: &mut [u8], terms: Terms, reply: Reply) -> usize
    requires { 64 ≤ length room.old }
    ensures { Put (reply_of terms reply) result room.old room.new }
{
    match reply {
        Reply::Nothing => 0,
        Reply::Ack(reliable) => put_message(room, Message::Ack(reliable)),
        Reply::Leaving(reason, reliable) => put_leaving(room, terms, reliable, reason),
    }
}

// What a channel sends as time passes.
#[tactic(auto, using(octets::proofs::Writes::splice_nothing), unfolding(crate::specs::Sent::event_of))]
pub fn put_event(room: &mut [u8], terms: Terms, event: Event) -> usize
    requires { 64 ≤ length room.old }
    ensures { Put (event_of terms event) result room.old room.new }
{
    match event {
        Event::Nothing => 0,
        Event::Nak {
            reliable,
            first,
            last,
            outbound: _,
        } => put_message(room, joining::nak_of(terms, reliable, first, last)),
        Event::Leaving(reason, reliable) => put_leaving(room, terms, reliable, reason),
    }
}

// The reply to a Join.
// `owner`, `j` and `reciprocal` stay parameters: two of the three decisions leave `reciprocal` aside, so a struct of them would be taken apart at once.
#[tactic(auto, unfolding(crate::specs::Sent::join_reply_of))]
pub fn put_join_reply(
    room: &mut [u8],
    owner: Cid,
    j: Join,
    reciprocal: u16,
    decision: Decision,
) -> usize
    requires { 64 ≤ length room.old }
    ensures { Put (join_reply_of owner j reciprocal decision) result room.old room.new }
{
    match decision {
        Decision::Refuse(reason) => put_message(room, joining::join_refuse_of(owner, j, reason)),
        Decision::Again {
            reliable,
            reciprocal: kept,
        } => put_message(room, joining::acceptance_of(owner, j, reliable, kept)),
        Decision::Make(_) => put_welcome(room, owner, j, reciprocal),
    }
}
