// What a message asks of the table: a Join, or a step of one record by a wrapper; or it is refused by 4 to 7.
#![tactic(auto)]

ghost use Rattle.std.specs.Prelude.{◌≡◌};
ghost use Rattle.asking.specs.Asking.{arrived_of, wrapper_asks, join_asks, asked_of};

use message::{Cid, Join, MOST_CONTENTS, Message, Wrapper};
use record::Record;
use refusal::Refusal;
use wrapper::Arrived;

// A wrapper's own fields; the rest of its data is its contents.
// `message` has the number in the rows of the two vectors, as their least length; to search the rows for what is fixed would be no plainer.
pub const FIELDS: usize = 20;

// What a message asks of the table: a Join, or a step of the record `at` by a wrapper.
#[derive(Clone, Copy)]
pub enum Asked {
    Join(Join),
    Wrapper { at: usize, arrived: Arrived },
}

// Field by field: an `Arrived` that held the `Wrapper` whole would bring a channel into the step of one record, which has none to ask.
fn arrived_of(reliably: bool, w: Wrapper, len: u16) -> Arrived
    ensures { result ≡ arrived_of reliably w len }
{
    Arrived {
        reliably,
        total: w.total,
        reliable: w.reliable,
        oldest: w.oldest,
        first: w.first,
        last: w.last,
        threshold: w.threshold,
        len,
    }
}

// Refusals 6 and 7 of a wrapper with contents of `len` octets.
#[tactic(auto, unfolding(crate::specs::Asking::wrapper_asks))]
fn wrapper_asks(
    table: [Record; 8],
    sender: Cid,
    reliably: bool,
    w: Wrapper,
    len: usize,
) -> Result<Asked, Refusal>
    ensures { result ≡ wrapper_asks table sender reliably w len }
{
    let at = table::find(table, sender, w.channel).ok_or(Refusal::NoRecord)?;
    if MOST_CONTENTS < len {
        return Err(Refusal::ContentsOver);
    }
    Ok(Asked::Wrapper {
        at,
        arrived: arrived_of(reliably, w, len as u16),
    })
}

// Refusal 5 of a Join.
#[tactic(auto, unfolding(crate::specs::Asking::join_asks, table::specs::Table::same))]
fn join_asks(ours: Cid, j: Join) -> Result<Asked, Refusal>
    ensures { result ≡ join_asks ours j }
{
    if j.cid != ours {
        return Err(Refusal::NotForUs);
    }
    Ok(Asked::Join(j))
}

// Refusals 4 to 7. An ACK is not a base message.
// Here and in `member`, `sender` and `ours`, `vector` and `body` stay parameters: a struct of a pair would be made in `message` to be taken apart here.
#[tactic(auto, using(crate::proofs::Wrappers::lengths), unfolding(crate::specs::Asking::asked_of))]
pub fn asks(
    table: [Record; 8],
    sender: Cid,
    ours: Cid,
    vector: u8,
    body: &[u8],
) -> Result<Asked, Refusal>
    ensures { result ≡ asked_of table sender ours vector body.now }
{
    let m = message::read_message(vector, body)?;
    match m {
        Message::ReliableWrapper(w) => wrapper_asks(table, sender, true, w, body.len() - FIELDS),
        Message::UnreliableWrapper(w) => wrapper_asks(table, sender, false, w, body.len() - FIELDS),
        Message::Join(j) => join_asks(ours, j),
        Message::Ack(_) => Err(Refusal::NoForm),
        _ => Err(Refusal::NotForUs),
    }
}
