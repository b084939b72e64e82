// One channel's record: what it holds, the profile's numbers, and whether it is well formed.
#![tactic(auto)]

mod reasons;
mod searches;

ghost use Rattle.std.specs.Prelude.{◌≡◌, ◌*◌};
ghost use Rattle.record.specs.Profile.{nak_timeout, max_retries};
ghost use Rattle.record.specs.Legal.{legal_names, legal_parameters};
ghost use Rattle.record.specs.With.{freed, with_gap, free_place};
ghost use Rattle.record.specs.WellFormed.{closed, held_right, apart, held_apart, held_all_right, gap_right, terms_right, well_formed};

use counter::{Counter, Reliable, Total};
use message::{Cid, MOST_CONTENTS};
pub use reasons::{NoReason, Reason, is_leaving_reason};
pub use searches::{all_apart, lowest};

// The phase of a gap, with its time left in milliseconds and the number of NAKs sent.
#[derive(Clone, Copy, Debug, PartialEq, Eq)]
pub enum Gap {
    Quiet,
    Standoff { left: u32, count: u8 },
    Waiting { left: u32, count: u8 },
}

// A place for a held wrapper: its numbers and the length of its contents.
#[derive(Clone, Copy, Debug, PartialEq, Eq)]
pub struct Place {
    // Beside the rest, and no `Option` of it: a free place keeps what it held (`free_place`).
    pub used: bool,
    pub total: Total,
    pub reliable: Reliable,
    pub len: u16,
}

// What the Join fixed for the channel's life.
#[derive(Clone, Copy, Debug, PartialEq, Eq)]
pub struct Terms {
    pub owner: Cid,
    pub channel: u16,
    pub mid: u16,
    pub reciprocal: u16,
    pub expiry: u8,
    pub outbound: bool,
    pub holdoff: u16,
    pub modulus: u16,
    pub maxwait: u16,
}

// A channel: `total` is 01's T, `reliable` R, `known` K and `acked` A.
#[derive(Clone, Copy, Debug, PartialEq, Eq)]
pub struct Record {
    // Beside the rest, and no `Option` of it: a free record keeps what its last step left (01, "Room"; `freed`).
    pub used: bool,
    pub terms: Terms,
    pub total: Total,
    pub reliable: Reliable,
    pub known: Reliable,
    pub acked: Reliable,
    pub idle: u32,
    pub gap: Gap,
    pub places: [Place; 4],
}

// The profile's numbers: the least expiry in seconds, the milliseconds that a NAK waits for each second of expiry, and the number of NAKs.
const MIN_EXPIRY_TIME: u8 = 2;

const NAK_TIMEOUT_FACTOR: u32 = 100;

const NAK_MAX_RETRIES: u8 = 3;

#[tactic(auto, unfolding(crate::specs::Profile::max_retries))]
pub fn max_retries() -> u8
    ensures { result ≡ max_retries }
{
    NAK_MAX_RETRIES
}

// How long a NAK waits for its wrappers.
#[tactic(auto, unfolding(crate::specs::Profile::nak_timeout, crate::specs::Profile::nak_timeout_factor))]
pub fn nak_timeout(expiry: u8) -> u32
    ensures { result ≡ nak_timeout expiry }
{
    u32::from(expiry) * NAK_TIMEOUT_FACTOR
}

// Channel and MID as a Join may have them.
#[tactic(auto, unfolding(crate::specs::Legal::legal_names))]
pub fn legal_names(channel: u16, mid: u16) -> bool
    ensures { result ≡ legal_names channel mid }
{
    channel != 0 && mid != 0 && mid != 65535
}

// Modulus and expiry as a Join may have them.
#[tactic(auto, unfolding(crate::specs::Legal::legal_parameters, crate::specs::Profile::min_expiry))]
pub fn legal_parameters(modulus: u16, expiry: u8) -> bool
    ensures { result ≡ legal_parameters modulus expiry }
{
    modulus != 0 && MIN_EXPIRY_TIME <= expiry
}

impl Gap {
    // The phase fits the record's numbers: `shut` says that there is no gap.
    #[tactic(auto, unfolding(crate::specs::WellFormed::gap_right, crate::specs::Profile::max_retries))]
    fn is_right(self, shut: bool, terms: Terms) -> bool
        ensures { result ≡ gap_right self shut terms }
    {
        match self {
            Gap::Quiet => shut,
            Gap::Standoff { left, count } => {
                !shut && count < NAK_MAX_RETRIES && left <= u32::from(terms.maxwait)
            }
            Gap::Waiting { left, count } => {
                !shut && 1 <= count && count <= NAK_MAX_RETRIES && left <= nak_timeout(terms.expiry)
            }
        }
    }
}

impl Place {
    // A held wrapper is two or more ahead of R, not past K, and its contents fit.
    #[tactic(auto, unfolding(crate::specs::WellFormed::held_right))]
    fn is_right(self, reliable: Reliable, known: Reliable) -> bool
        ensures { result ≡ held_right reliable known self }
    {
        if !self.used {
            return true;
        }
        let ahead = reliable.distance_to(self.reliable);
        2 <= ahead && ahead <= reliable.distance_to(known) && usize::from(self.len) <= MOST_CONTENTS
    }

    // Two places do not hold the same reliable number.
    #[tactic(auto, unfolding(crate::specs::WellFormed::apart))]
    fn is_apart(self, other: Place) -> bool
        ensures { result ≡ apart self other }
    {
        !(self.used && other.used && self.reliable == other.reliable)
    }

    // The place marked free. Apart from the record's `freed`: a trait for the two, with its law, would be no plainer than two literals.
    pub fn freed(self) -> Place
        ensures { result ≡ free_place self }
    {
        Place {
            used: false,
            ..self
        }
    }
}

// Every held wrapper is right.
#[tactic(auto, unfolding(crate::specs::WellFormed::held_all_right))]
fn held_all_right(reliable: Reliable, known: Reliable, places: &[Place]) -> bool
    ensures { result ≡ held_all_right reliable known places.now }
{
    places.iter().all(|p| p.is_right(reliable, known))
}

// Held numbers differ.
fn held_apart(places: &[Place]) -> bool
    ensures { result ≡ held_apart places.now }
{
    all_apart(places, |p, q| p.is_apart(*q))
}

impl Terms {
    // The terms of a used record are those that a Join may have.
    #[tactic(auto, unfolding(crate::specs::WellFormed::terms_right))]
    fn is_right(self) -> bool
        ensures { result ≡ terms_right self }
    {
        legal_names(self.channel, self.mid)
            && legal_parameters(self.modulus, self.expiry)
            && self.reciprocal != 0
    }

    // The expiry in milliseconds: a channel that was idle for so long is left.
    pub fn expiry_time(self) -> u32
        ensures { result ≡ self.expiry * 1000 }
    {
        u32::from(self.expiry) * 1000
    }
}

impl Record {
    // Whether there is no gap.
    #[tactic(auto, unfolding(crate::specs::WellFormed::closed))]
    pub fn is_closed(self) -> bool
        ensures { result ≡ closed self }
    {
        self.known == self.reliable
    }

    // Whether a record is well formed. Any record is taken.
    #[tactic(auto, unfolding(crate::specs::WellFormed::well_formed))]
    pub fn is_well_formed(self) -> bool
        ensures { result ≡ well_formed self }
    {
        !self.used
            || (self.terms.is_right()
                && 0 <= self.reliable.distance_to(self.known)
                && held_all_right(self.reliable, self.known, &self.places)
                && held_apart(&self.places)
                && self.gap.is_right(self.is_closed(), self.terms)
                && self.idle < self.terms.expiry_time())
    }

    // The record with another gap.
    pub fn with_gap(self, gap: Gap) -> Record
        ensures { result ≡ with_gap self gap }
    {
        Record { gap, ..self }
    }

    // The record marked free.
    pub fn freed(self) -> Record
        ensures { result ≡ freed self }
    {
        Record {
            used: false,
            ..self
        }
    }
}
