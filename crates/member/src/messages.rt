// A message call (specs/Messages): what is refused, what a Join and a wrapper do to the table, and what is written into the lent rooms.
ghost use Rattle.std.specs.Prelude.{◌≡◌, true, [], ◌<◌, ◌≤◌, Ok, IfSome, length};
ghost use Rattle.message.specs.Reading.{contents};
ghost use Rattle.record.specs.WellFormed.{well_formed, most_contents};
ghost use Rattle.table.specs.Table.{table_formed, record_at};
ghost use Rattle.carry.specs.Fits.{Fits};
ghost use Rattle.asking.specs.Asking.{asked_of};
ghost use Rattle.member.specs.Messages.{existing_at, joined_at, table_after, join_outcome, plan_outcome, wrapper_outcome, asked_outcome, messaged, reply_after, MessageEndsAs};

use crate::{DELIVER, Given, HELD, Messaged, REPLY};
use asking::{Asked, FIELDS};
use joining::{Decision, Existing};
use message::{Cid, Join};
use record::Record;
use refusal::Refusal;
use wrapper::{Arrived, Plan};

// What the table has for a Join.
// That an index is below 8 is a premise in this crate and no type: callers have it of a search, `pass_one` of its loop, and the definitions take numbers.
fn existing_at(table: [Record; 8], at: Option<usize>) -> Option<Existing>
    requires { IfSome at (λ i. i < 8) }
    ensures { result ≡ existing_at table at }
{
    at.map(|i| Existing::from(table[i]))
}

// Which record the channel of a Join now has: the new one, or the one it had.
fn joined_at(decision: Decision, known: Option<usize>, free: Option<usize>) -> Option<usize>
    ensures { result ≡ joined_at decision known free }
{
    match decision {
        Decision::Make(_) => free,
        _ => known,
    }
}

// The table after a Join: a new record stands in the lowest free one. Its six parameters are those of the definition, `table_after`.
fn table_after(
    table: [Record; 8],
    sender: Cid,
    j: Join,
    reciprocal: u16,
    decision: Decision,
    free: Option<usize>,
) -> [Record; 8]
    requires { IfSome free (λ i. i < 8) }
    ensures { result ≡ table_after table sender j reciprocal decision free }
{
    let mut after = table;
    if let (Decision::Make(p), Some(at)) = (decision, free) {
        after[at] = joining::new_record(table[at], sender, j, p, reciprocal);
    }
    after
}

// A Join: its decision, the record that it makes, and the reply.
fn take_join(
    table: [Record; 8],
    reply: &mut [u8; REPLY],
    sender: Cid,
    j: Join,
    reciprocal: u16,
) -> Messaged
    ensures { (Ok result ≡ messaged (join_outcome table [] sender j reciprocal))
        × (reply.new ≡ reply_after (join_outcome table [] sender j reciprocal) reply.old) }
{
    let known = table::find(table, sender, j.channel);
    let free = table::find_free(table);
    let decision = joining::decide(j, existing_at(table, known), reciprocal, free.is_some());
    let after = table_after(table, sender, j, reciprocal, decision, free);
    Messaged {
        table: after,
        given: Given::Joined {
            at: joined_at(decision, known, free),
            decision,
        },
        deliveries: carry::no_deliveries(),
        reply: sending::put_join_reply(reply, sender, j, reciprocal, decision),
    }
}

// The plan of the record `at`, carried out.
// The three lent pieces stay parameters, here and up to `message`: a struct that holds three `&mut` would owe a clause for each that it keeps its reference.
// `length contents ≤ most_contents`, here and in `take_wrapper`, stays a premise: the caller has it of refusal 7, and a type of it would be taken off below.
fn carried(
    table: [Record; 8],
    held: &mut [u8; HELD],
    deliver: &mut [u8; DELIVER],
    reply: &mut [u8; REPLY],
    at: usize,
    w: Arrived,
    plan: Plan,
    contents: &[u8],
) -> Messaged
    requires { (at < 8) × Fits plan × (length contents.now ≤ most_contents) }
    ensures { MessageEndsAs (plan_outcome table held.old at w contents.now plan) deliver.old reply.old
        (record { answer = Ok result; held = held.new; deliver = deliver.new; reply = reply.new }) }
{
    let deliveries = carry::carry_out(held, deliver, at, w, plan, contents);
    let mut after = table;
    after[at] = plan.after;
    Messaged {
        table: after,
        given: Given::Wrapped {
            at,
            fate: plan.fate,
            thrown: plan.thrown,
            reply: plan.reply,
        },
        deliveries,
        reply: sending::put_reply(reply, plan.after.terms, plan.reply),
    }
}

// The step of the record `at` by a wrapper: refused as 8 or 9, or carried out.
// `w.len` is the length of the contents once more: `wrapper_step` is in numbers alone, and has `w` without them.
// `well_formed`, here and in `pass_one`, is no invariant of Record: refusal 2 is given for a table whose records are not well formed.
fn take_wrapper(
    table: [Record; 8],
    held: &mut [u8; HELD],
    deliver: &mut [u8; DELIVER],
    reply: &mut [u8; REPLY],
    at: usize,
    w: Arrived,
    contents: &[u8],
) -> Result<Messaged, Refusal>
    requires at_bound { (at < 8) × ((record_at table at).used ≡ true) × (well_formed (record_at table at) ≡ true) }
    requires len_value { (w.len ≡ length contents.now) × (w.len ≤ most_contents) }
    ensures { MessageEndsAs (wrapper_outcome table held.old at w contents.now) deliver.old reply.old
        (record { answer = result; held = held.new; deliver = deliver.new; reply = reply.new }) }
{
    let plan = wrapper::wrapper_step(table[at], w)?;
    Ok(carried(table, held, deliver, reply, at, w, plan, contents))
}

// A well-formed table and right sizes: what the message asks is done.
pub fn take_message(
    table: [Record; 8],
    held: &mut [u8; HELD],
    deliver: &mut [u8; DELIVER],
    reply: &mut [u8; REPLY],
    sender: Cid,
    ours: Cid,
    vector: u8,
    body: &[u8],
    reciprocal: u16,
) -> Result<Messaged, Refusal>
    requires { table_formed table ≡ true }
    ensures { MessageEndsAs (asked_outcome table held.old sender reciprocal (contents body.now) (asked_of table sender ours vector body.now)) deliver.old reply.old
        (record { answer = result; held = held.new; deliver = deliver.new; reply = reply.new }) }
{
    let asked = asking::asks(table, sender, ours, vector, body)?;
    match asked {
        Asked::Join(j) => Ok(take_join(table, reply, sender, j, reciprocal)),
        Asked::Wrapper { at, arrived } => {
            take_wrapper(table, held, deliver, reply, at, arrived, &body[FIELDS..])
        }
    }
}
