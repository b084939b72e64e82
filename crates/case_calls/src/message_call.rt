// A message call: what it delivers, holds, throws out and replies, and the octets that it may write for that.
use crate::say_reply;
use carry::Delivery;
use case_forms::Spelled;
use case_rooms::Ran;
use case_rooms::lent::{Held, PLACE, Room};
use case_rooms::setting::Setting;
use member::{Given, Messaged};
use std::alloc::AllocError;
use wrapper::Fate;

// The rooms of a message call.
#[derive(Drop)]
struct Rooms {
    deliver: Room,
    reply: Room,
}

impl Rooms {
    fn new(setting: &Setting) -> Result<Rooms, AllocError> {
        Ok(Rooms {
            deliver: Room::new(setting.alloc, setting.lent.deliver)?,
            reply: Room::new(setting.alloc, setting.lent.reply)?,
        })
    }

    // The delivery of a cell.
    fn say_delivery(
        &mut self,
        said: &mut String,
        cell: usize,
        d: Delivery,
    ) -> Result<(), AllocError> {
        let how = if d.reliably { "reliable" } else { "unreliable" };
        write!(said, "= delivered {how} {} {} ", d.total.0, d.reliable.0)?;
        self.deliver
            .say(said, cell.saturating_mul(PLACE), usize::from(d.len))?;
        said.push_str("\n")
    }

    // What a call that was taken gave, but for its records.
    fn say_taken(&mut self, said: &mut String, sent: &Messaged) -> Result<(), AllocError> {
        said.push_str("= taken\n")?;
        for (cell, delivery) in sent
            .deliveries
            .each
            .iter()
            .take(sent.deliveries.count)
            .enumerate()
        {
            self.say_delivery(said, cell, *delivery)?;
        }
        if let Given::Wrapped { fate, thrown, .. } = sent.given {
            say_fate(said, fate, thrown)?;
        }
        say_reply(said, &mut self.reply, sent.reply)
    }
}

// What became of a wrapper that was not delivered at once, and how many held ones were thrown out.
fn say_fate(said: &mut String, fate: Fate, thrown: usize) -> Result<(), AllocError> {
    match fate {
        Fate::Delivered => {}
        Fate::Held(place) => writeln!(said, "= held {place}")?,
        Fate::Dropped => said.push_str("= dropped\n")?,
    }
    if thrown != 0 {
        writeln!(said, "= thrown {thrown}")?;
    }
    Ok(())
}

// The place that the answer names may hold other octets than before, over its written length.
fn allow_held(held: &mut Held, sent: &Messaged) {
    if let Given::Wrapped {
        at,
        fate: Fate::Held(j),
        ..
    } = sent.given
        && let Some(record) = sent.table.get(at)
        && let Some(place) = record.places.get(j)
    {
        held.allow(at, j, usize::from(place.len));
    }
}

pub fn message_step(
    setting: &mut Setting,
    sender: &[u8],
    vector: u8,
    reciprocal: u16,
    data: &[u8],
) -> Result<Ran, AllocError> {
    let held = setting.lent.held;
    let mut rooms = Rooms::new(setting)?;
    let answer = member::message(
        setting.table,
        setting.held.lend(held),
        rooms.deliver.lend(),
        rooms.reply.lend(),
        sender,
        setting.ours.as_slice(),
        vector,
        data,
        reciprocal,
    );
    let mut said = String::new(setting.alloc);
    match answer {
        Err(refusal) => writeln!(said, "= {}", Spelled(refusal))?,
        Ok(sent) => {
            rooms.say_taken(&mut said, &sent)?;
            allow_held(&mut setting.held, &sent);
            setting.accept(&mut said, sent.table)?;
        }
    }
    let fault = setting
        .held
        .fault(held)
        .or_else(|| rooms.deliver.fault("the delivery room"))
        .or_else(|| rooms.reply.fault("the reply room"));
    Ok(Ran { said, fault })
}
