// Step 3 of a wrapper (specs/Hold): delivered, held in a place, or dropped.
ghost use Rattle.std.specs.Prelude.{◌≡◌, ◌<◌, IfSome};
ghost use Rattle.wrapper.specs.Hold.{next_one, holds, place_for, placed};

use crate::{Arrived, Fate, Placed};
use counter::{Counter, Reliable};
use record::{Place, Record, lowest};

// Whether the wrapper is the next one.
#[tactic(auto, unfolding(crate::specs::Hold::next_one))]
fn is_next_one(r: Record, w: Arrived) -> bool
    ensures { result ≡ next_one r w }
{
    r.reliable.distance_to(w.reliable) == i32::from(w.reliably)
}

// Whether a held wrapper has this reliable number.
#[tactic(auto, unfolding(crate::specs::Hold::holds))]
fn is_held(n: Reliable, places: &[Place]) -> bool
    ensures { result ≡ holds n places.now }
{
    places.iter().any(|p| p.used && p.reliable == n)
}

// Where a wrapper is held.
#[tactic(auto, unfolding(crate::specs::Hold::place_for, crate::specs::Hold::lowest_free))]
fn place_for(w: Arrived, places: [Place; 4]) -> Option<usize>
    ensures found { result ≡ place_for w places }
    ensures within { IfSome result (λ i. i < 4) }
{
    if !w.reliably || is_held(w.reliable, &places) {
        return None;
    }
    lowest(&places, |p| !p.used)
}

// Step 3.
#[tactic(auto, unfolding(crate::specs::Hold::placed))]
pub fn place_wrapper(r: Record, w: Arrived) -> Placed
    ensures { result ≡ placed r w }
{
    if is_next_one(r, w) {
        return Placed {
            after: Record {
                total: w.total,
                reliable: w.reliable,
                ..r
            },
            fate: Fate::Delivered,
        };
    }
    let Some(i) = place_for(w, r.places) else {
        return Placed {
            after: r,
            fate: Fate::Dropped,
        };
    };
    let mut after = r;
    after.places[i] = Place {
        used: true,
        total: w.total,
        reliable: w.reliable,
        len: w.len,
    };
    Placed {
        after,
        fate: Fate::Held(i),
    }
}
