// The calls over the table: each calls the library with the values of its line, says what that gave, and looks whether any lent octet was
// changed that the answer does not name.
#![tactic(auto)]

mod elapsed_call;
mod leave_call;
mod message_call;

use case_rooms::lent::Room;
pub use elapsed_call::elapsed_step;
pub use leave_call::leave_step;
pub use message_call::message_step;
use std::alloc::AllocError;

// The reply, if there is one.
fn say_reply(said: &mut String, room: &mut Room, len: usize) -> Result<(), AllocError> {
    if len == 0 {
        return Ok(());
    }
    said.push_str("= reply ")?;
    room.say(said, 0, len)?;
    said.push_str("\n")
}
