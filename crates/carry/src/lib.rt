// A wrapper's plan carried out in lent octets: its contents into a held place or a delivery cell, and what is released into the cells after it.
#![tactic(auto)]

ghost use Rattle.std.specs.Prelude.{◌≡◌, [], ◌∷◌, ℕ, ◌+◌, ◌*◌, ◌<◌, ◌≤◌, length, take};
ghost use Rattle.record.specs.WellFormed.{most_contents};
ghost use Rattle.carry.specs.Carried.{place_begins, held_after, at_once, from_place, from_places, delivered_by, deliver_from, no_deliveries, one_more, itself, of_held, listed};
ghost use Rattle.carry.specs.Fits.{Fits};

use counter::{Reliable, Total};
use message::MOST_CONTENTS;
use octets::copy_into;
use record::Place;
use wrapper::{Arrived, Fate, Plan};

// The octets that are lent: four places of contents for each of eight records, and five cells for deliveries (01, "Room").
pub const HELD: usize = 46528;

pub const DELIVER: usize = 7270;

// A delivered wrapper. Its contents are the first `len` octets of the delivery cell of the same turn.
// `reliably` is a truth value, as in `Arrived`: 01 has two kinds of wrappers, reliable or not, and an enum would only be tested for one of its two cases.
#[derive(Clone, Copy)]
pub struct Delivery {
    pub reliably: bool,
    pub total: Total,
    pub reliable: Reliable,
    pub len: u16,
}

impl From<Arrived> for Delivery {
    ghost from_gives = { λ w d. d ≡ itself w };

    fn from(w: Arrived) -> Delivery {
        Delivery {
            reliably: w.reliably,
            total: w.total,
            reliable: w.reliable,
            len: w.len,
        }
    }
}

// Only reliable wrappers are held.
impl From<Place> for Delivery {
    ghost from_gives = { λ p d. d ≡ of_held p };

    fn from(p: Place) -> Delivery {
        Delivery {
            reliably: true,
            total: p.total,
            reliable: p.reliable,
            len: p.len,
        }
    }
}

// The first `count` of `each` are what was delivered, in order.
// An array with its count beside it: `ArrayVec` is not `Copy` (tried), and deliveries are values that a step copies and adds one to.
#[derive(Clone, Copy)]
pub struct Deliveries {
    pub each: [Delivery; 5],
    pub count: usize,
}

const NO_DELIVERY: Delivery = Delivery {
    reliably: false,
    total: Total(0),
    reliable: Reliable(0),
    len: 0,
};

pub fn no_deliveries() -> Deliveries
    ensures { result ≡ no_deliveries }
{
    Deliveries {
        each: [NO_DELIVERY; 5],
        count: 0,
    }
}

// Where place j of record i lies in the held octets.
// i and j are no types of their own: callers have their bounds of searches and loops, and each definition would take the type off again.
#[tactic(auto, unfolding(crate::specs::Carried::place_begins))]
fn place_begins(i: usize, j: usize) -> usize
    requires { (i < 8) × (j < 4) }
    ensures { (result ≡ place_begins i j) × (result + most_contents ≤ 46528) }
{
    (i * 4 + j) * MOST_CONTENTS
}

// One delivery more: its contents are copied into the next cell.
// That contents are at most 1,454 octets is a premise here and below, and no type: a slice in a struct would be taken out again to be copied, by each function.
#[tactic(auto, unfolding(crate::specs::Carried::deliver_from))]
fn deliver_one(
    deliver: &mut [u8; DELIVER],
    before: Deliveries,
    delivery: Delivery,
    contents: &[u8],
) -> Deliveries
    requires { (before.count < 5) × (length contents.now ≤ most_contents) }
    ensures { (result ≡ one_more before (record { delivery = delivery; contents = contents.now })) × (deliver.new ≡ deliver_from before.count (record { delivery = delivery; contents = contents.now } ∷ []) deliver.old) }
{
    copy_into(deliver, before.count * MOST_CONTENTS, contents);
    let mut after = before;
    after.each[before.count] = delivery;
    after.count += 1;
    after
}

// The wrapper itself: it is the first delivery, its contents are copied into a place of record i, or it is dropped.
// Six parameters, here and in `carry_out`: a struct of the two rooms would owe a clause for each `&mut` in it (the new form is no plainer).
#[tactic(auto, unfolding(crate::specs::Carried::listed, crate::specs::Carried::deliver_from))]
fn carry_itself(
    held: &mut [u8; HELD],
    deliver: &mut [u8; DELIVER],
    i: usize,
    w: Arrived,
    fate: Fate,
    contents: &[u8],
) -> Deliveries
    requires { (i < 8) × ((j : ℕ) → fate ≡ Fate.Held j → j < 4) × (length contents.now ≤ most_contents) }
    ensures { (result ≡ listed no_deliveries (at_once fate w contents.now)) × (held.new ≡ held_after i fate contents.now held.old) × (deliver.new ≡ deliver_from 0 (at_once fate w contents.now) deliver.old) }
{
    match fate {
        Fate::Delivered => { deliver_one(deliver, no_deliveries(), w.into(), contents) }
        Fate::Held(j) => {
            copy_into(held, place_begins(i, j), contents);
            no_deliveries()
        }
        Fate::Dropped => no_deliveries(),
    }
}

// The held wrappers of record i that are released follow in their order. A freed place keeps its numbers and length.
fn deliver_held(
    deliver: &mut [u8; DELIVER],
    held: &[u8; HELD],
    i: usize,
    plan: Plan,
    first: Deliveries,
) -> Deliveries
    requires { (i < 8) × Fits plan × (first.count ≤ 1) }
    ensures { (result ≡ listed first (from_places held.now i plan.after.places (take plan.count plan.order))) × (deliver.new ≡ deliver_from first.count (from_places held.now i plan.after.places (take plan.count plan.order)) deliver.old) }
{
    let mut all = first;
    for &j in &plan.order[..plan.count] {
        let p = plan.after.places[j];
        let begin = place_begins(i, j);
        let contents = &held[begin..begin + usize::from(p.len)];
        all = deliver_one(deliver, all, p.into(), contents);
    }
    all
}

// The plan of a step of record i by a wrapper: its contents are held or delivered, and what is released follows.
// That the plan fits is a premise, and no invariant of `Plan`: it is so of a plan from a well-formed record alone (proofs/PlanFits), and `wrapper_step` takes any.
pub fn carry_out(
    held: &mut [u8; HELD],
    deliver: &mut [u8; DELIVER],
    i: usize,
    w: Arrived,
    plan: Plan,
    contents: &[u8],
) -> Deliveries
    requires { (i < 8) × Fits plan × (length contents.now ≤ most_contents) }
    ensures { (result ≡ listed no_deliveries (delivered_by held.old i w contents.now plan)) × (held.new ≡ held_after i plan.fate contents.now held.old) × (deliver.new ≡ deliver_from 0 (delivered_by held.old i w contents.now plan) deliver.old) }
{
    let first = carry_itself(held, deliver, i, w, plan.fate, contents);
    deliver_held(deliver, held, i, plan, first)
}
