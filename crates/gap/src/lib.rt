// The gap of one channel: the standoff's time, the range of a NAK, and what elapsed time does to a record.
#![tactic(auto)]

ghost use Rattle.std.specs.Prelude.{◌≡◌, true, ◌+◌, ◌-◌, ◌<◌, ◌≤◌};
ghost use Rattle.record.specs.Profile.{max_retries};
ghost use Rattle.record.specs.With.{with_idle};
ghost use Rattle.record.specs.WellFormed.{well_formed};
ghost use Rattle.gap.specs.Standoff.{standoff, standoff_of};
ghost use Rattle.gap.specs.Range.{nearer, nearest, nak_last};
ghost use Rattle.gap.specs.Elapsed.{gives, in_standoff, in_wait, phased, elapsed_of};

use counter::{Counter, Reliable};
use record::{Gap, Place, Reason, Record, Terms, max_retries, nak_timeout};

// What elapsed time makes a channel send: nothing, a NAK with R, its range and whether it goes outbound too, or Leaving with its reason and R.
// `Nothing` is a case, and no `Option` around two: each use tells the three apart in one match.
// The reason is the message's number: `put_event` (sending) takes any octet, and `event_read` (demands) says what is read back of each.
#[derive(Clone, Copy, Debug, PartialEq, Eq)]
pub enum Event {
    Nothing,
    Nak {
        reliable: Reliable,
        first: Reliable,
        last: Reliable,
        outbound: bool,
    },
    Leaving(u8, Reliable),
}

// A record after elapsed time, and what is sent.
#[derive(Clone, Copy, Debug, PartialEq, Eq)]
pub struct Elapsed {
    pub after: Record,
    pub event: Event,
}

impl Elapsed {
    // Nothing is sent.
    fn silent(after: Record) -> Elapsed
        ensures { result ≡ gives after Event.Nothing }
    {
        Elapsed {
            after,
            event: Event::Nothing,
        }
    }
}

// The time of a standoff. The sum is not wrapped. Of a modulus of 0, which no well-formed record has, the sum is its own remainder.
pub fn standoff_time(reliable: Reliable, terms: Terms) -> u32
    ensures { (result ≡ standoff reliable.0 terms.mid terms.modulus terms.holdoff terms.maxwait) × (result ≤ terms.maxwait) }
{
    let sum = u64::from(reliable.0) + u64::from(terms.mid);
    let rest = sum.checked_rem(u64::from(terms.modulus)).unwrap_or(sum);
    let time = rest * u64::from(terms.holdoff);
    time.min(u64::from(terms.maxwait)) as u32
}

// The time of a record's standoff.
#[tactic(auto, unfolding(crate::specs::Standoff::standoff_of))]
pub fn standoff_of(r: Record) -> u32
    ensures { (result ≡ standoff_of r) × (result ≤ r.terms.maxwait) }
{
    standoff_time(r.reliable, r.terms)
}

// Of the number found so far and a place, the number that is nearer to R.
#[tactic(auto, unfolding(crate::specs::Range::nearer))]
fn nearer_of(reliable: Reliable, found: Option<Reliable>, place: Place) -> Option<Reliable>
    ensures { result ≡ nearer reliable found place }
{
    if !place.used {
        return found;
    }
    match found {
        Some(near) if reliable.distance_to(near) <= reliable.distance_to(place.reliable) => found,
        _ => Some(place.reliable),
    }
}

// The nearest held number.
#[tactic(auto, unfolding(crate::specs::Range::nearest))]
fn nearest_of(reliable: Reliable, places: &[Place]) -> Option<Reliable>
    ensures { result ≡ nearest reliable None places.now }
{
    places
        .iter()
        .fold(None, |found, place| nearer_of(reliable, found, *place))
}

// Where a NAK ends: one before the nearest held number, or at K.
#[tactic(auto, unfolding(crate::specs::Range::nak_last))]
pub fn nak_last(r: Record) -> Reliable
    ensures { result ≡ nak_last r }
{
    nearest_of(r.reliable, &r.places).map_or(r.known, |near| near.previous())
}

// A standoff of which `left` milliseconds are left: at 0 a NAK is sent and its wait begins.
#[tactic(auto, unfolding(crate::specs::Elapsed::in_standoff, crate::specs::Range::nak_first))]
fn in_standoff(r: Record, left: u32, count: u8) -> Elapsed
    requires { count < max_retries }
    ensures { result ≡ in_standoff r left count }
{
    if left > 0 {
        return Elapsed::silent(r.with_gap(Gap::Standoff { left, count }));
    }
    Elapsed {
        after: r.with_gap(Gap::Waiting {
            left: nak_timeout(r.terms.expiry),
            count: count + 1,
        }),
        event: Event::Nak {
            reliable: r.reliable,
            first: r.reliable.next(),
            last: nak_last(r),
            outbound: r.terms.outbound,
        },
    }
}

// A wait of which `left` milliseconds are left: at 0 the channel is left if all NAKs are spent, else a standoff begins.
#[tactic(auto, unfolding(crate::specs::Elapsed::in_wait))]
fn in_wait(r: Record, left: u32, count: u8) -> Elapsed
    ensures { result ≡ in_wait r left count }
{
    if left > 0 {
        return Elapsed::silent(r.with_gap(Gap::Waiting { left, count }));
    }
    if count == max_retries() {
        return Elapsed {
            after: r.with_gap(Gap::Waiting { left, count }).freed(),
            event: Event::Leaving(Reason::LostSequence.into(), r.reliable),
        };
    }
    Elapsed::silent(r.with_gap(Gap::Standoff {
        left: standoff_of(r),
        count,
    }))
}

// The phase's time falls by `ms`, and the phase makes one move if none is left.
// `well_formed`, here and below, is a premise and no invariant of `Record`: refusal 2 judges records that are not. `ms ≤ 1000` is refusal 3's.
#[tactic(auto, unfolding(crate::specs::Elapsed::phased))]
fn phase_step(r: Record, ms: u32) -> Elapsed
    requires { (r.used ≡ true) × (well_formed r ≡ true) }
    ensures { result ≡ phased r r.gap ms }
{
    match r.gap {
        Gap::Quiet => Elapsed::silent(r),
        Gap::Standoff { left, count } => in_standoff(r, left.saturating_sub(ms), count),
        Gap::Waiting { left, count } => in_wait(r, left.saturating_sub(ms), count),
    }
}

// What `ms` milliseconds do to a record.
#[tactic(auto, unfolding(crate::specs::Elapsed::elapsed_of))]
pub fn elapsed_step(r: Record, ms: u32) -> Elapsed
    requires { (well_formed r ≡ true) × (ms ≤ 1000) }
    ensures { result ≡ elapsed_of r ms }
{
    if !r.used {
        return Elapsed::silent(r);
    }
    let later = Record {
        idle: r.idle + ms,
        ..r
    };
    if r.terms.expiry_time() <= later.idle {
        return Elapsed {
            after: later.freed(),
            event: Event::Leaving(Reason::ChannelExpired.into(), r.reliable),
        };
    }
    phase_step(later, ms)
}
