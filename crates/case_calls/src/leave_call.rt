// A leave call: the Leaving that it replies, and the record that it frees.
use crate::say_reply;
use case_forms::Spelled;
use case_rooms::Ran;
use case_rooms::lent::Room;
use case_rooms::setting::Setting;
use std::alloc::AllocError;

pub fn leave_step(
    setting: &mut Setting,
    owner: &[u8],
    channel: u16,
    reason: u8,
) -> Result<Ran, AllocError> {
    let mut reply = Room::new(setting.alloc, setting.lent.reply)?;
    let mut said = String::new(setting.alloc);
    match member::leave(setting.table, reply.lend(), owner, channel, reason) {
        Ok(left) => {
            said.push_str("= taken\n")?;
            say_reply(&mut said, &mut reply, left.reply)?;
            setting.accept(&mut said, left.table)?;
        }
        Err(refusal) => writeln!(said, "= {}", Spelled(refusal))?,
    }
    let fault = reply.fault("the reply room");
    Ok(Ran { said, fault })
}
