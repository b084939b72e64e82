// The step of one record by a wrapper, in numbers alone: it answers a plan, which whoever has the octets carries out. Its six steps lie in the modules.
#![tactic(auto)]

mod hold;
mod judge;
mod release;
mod settle;

ghost use Rattle.std.specs.Prelude.{◌≡◌};
ghost use Rattle.wrapper.specs.Taken.{taken, stepped};

use counter::{Reliable, Total};
use record::Record;
use refusal::Refusal;

// A wrapper that has arrived: `reliably` if it is a reliable one, its numbers, and the length of its contents.
// `reliably` is a truth value: 01 has two kinds of wrappers, reliable or not, and an enum would only be tested for one of its two cases.
#[derive(Clone, Copy)]
pub struct Arrived {
    pub reliably: bool,
    pub total: Total,
    pub reliable: Reliable,
    pub oldest: Reliable,
    pub first: u16,
    pub last: u16,
    pub threshold: u16,
    pub len: u16,
}

// What becomes of the wrapper itself.
#[derive(Clone, Copy)]
pub enum Fate {
    Delivered,
    Held(usize),
    Dropped,
}

// A record after step 3.
#[derive(Clone, Copy)]
pub struct Placed {
    pub after: Record,
    pub fate: Fate,
}

// A record after step 4: the first `count` of `order` are the places delivered, in order, and `thrown` were thrown out.
#[derive(Clone, Copy)]
pub struct Released {
    pub after: Record,
    // An array with its count beside it, here and in `Plan`: `ArrayVec` is not `Copy` (tried), and both are values that are copied, as by `release_at`.
    pub order: [usize; 4],
    pub count: usize,
    pub thrown: usize,
}

// What is sent. `Nothing` is a case, and no `Option` around two: each use tells the three apart in one match.
// The reason is the message's number, as in gap's `Event`: `put_reply` (sending) takes any octet, and `reply_read` (demands) says what is read back of each.
#[derive(Clone, Copy)]
pub enum Reply {
    Nothing,
    Ack(Reliable),
    Leaving(u8, Reliable),
}

// A record after step 6.
#[derive(Clone, Copy)]
pub struct Settled {
    pub after: Record,
    pub reply: Reply,
}

// All that steps 2 to 6 decide.
#[derive(Clone, Copy)]
pub struct Plan {
    pub after: Record,
    pub fate: Fate,
    pub order: [usize; 4],
    pub count: usize,
    pub thrown: usize,
    pub reply: Reply,
}

// Steps 2 to 6.
#[tactic(auto, unfolding(crate::specs::Taken::taken))]
fn take_wrapper(r: Record, w: Arrived) -> Plan
    ensures { result ≡ taken r w }
{
    let placed = hold::place_wrapper(judge::hear(r, w.reliable), w);
    let released = release::release(placed.after);
    let settled = settle::settle(released.after, w);
    // On its own: no proof is made where an array goes from a field straight into another.
    let order = released.order;
    Plan {
        after: settled.after,
        fate: placed.fate,
        order,
        count: released.count,
        thrown: released.thrown,
        reply: settled.reply,
    }
}

// The step of a record by a wrapper.
#[tactic(auto, unfolding(crate::specs::Taken::stepped))]
pub fn wrapper_step(r: Record, w: Arrived) -> Result<Plan, Refusal>
    ensures { result ≡ stepped r w }
{
    judge::judge(r, w.reliably, w.total, w.reliable)?;
    Ok(take_wrapper(r, w))
}
