// An elapsed call: what each record sends as time passes.
use case_forms::Spelled;
use case_rooms::Ran;
use case_rooms::lent::{CELL, Room};
use case_rooms::setting::Setting;
use gap::Event;
use member::Cell;
use std::alloc::AllocError;

// What the record of a cell sends.
fn say_cell(said: &mut String, room: &mut Room, i: usize, cell: Cell) -> Result<(), AllocError> {
    let sent = match cell.event {
        Event::Nothing => return Ok(()),
        Event::Nak {
            outbound: false,
            ..
        } => "nak",
        Event::Nak { outbound: true, .. } => "nak outbound",
        Event::Leaving(_, _) => "leaving",
    };
    write!(said, "= cell {i} {sent} ")?;
    room.say(said, i.saturating_mul(CELL), cell.len)?;
    said.push_str("\n")
}

pub fn elapsed_step(setting: &mut Setting, ms: u32) -> Result<Ran, AllocError> {
    let mut room = Room::new(setting.alloc, setting.lent.cells)?;
    let mut said = String::new(setting.alloc);
    match member::elapsed(setting.table, room.lend(), ms) {
        Ok(passed) => {
            said.push_str("= taken\n")?;
            for (i, cell) in passed.cells.iter().enumerate() {
                say_cell(&mut said, &mut room, i, *cell)?;
            }
            setting.accept(&mut said, passed.table)?;
        }
        Err(refusal) => writeln!(said, "= {}", Spelled(refusal))?,
    }
    let fault = room.fault("the cells");
    Ok(Ran { said, fault })
}
