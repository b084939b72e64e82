// Step 4 of a wrapper (specs/Release): held ones that are next are released.
ghost use Rattle.std.specs.Prelude.{◌≡◌, ◌<◌};
ghost use Rattle.wrapper.specs.Release.{is_next, release_at, released};

use crate::Released;
use crate::judge::judge;
use counter::{Counter, Reliable};
use record::{Place, Record, lowest};

// Whether a place holds a wrapper at distance 1 from R.
fn is_next(reliable: Reliable, p: Place) -> bool
    ensures { result ≡ is_next reliable p }
{
    p.used && reliable.distance_to(p.reliable) == 1
}

// Delivers the wrapper of place `i`, or throws it out if it is judged old; its place is free.
// `i < 4` is a premise and no type: `lowest` gives it, and the definition takes a number.
#[tactic(auto, unfolding(crate::specs::Release::release_at))]
fn release_at(s: Released, i: usize) -> Released
    requires { (i < 4) × (s.count < 4) × (s.thrown < 4) }
    ensures { result ≡ release_at s i }
{
    let p = s.after.places[i];
    let mut next = s;
    next.after.places[i] = p.freed();
    if judge(s.after, true, p.total, p.reliable).is_err() {
        next.thrown += 1;
        return next;
    }
    next.after.total = p.total;
    next.after.reliable = p.reliable;
    next.order[s.count] = i;
    next.count += 1;
    next
}

// Step 4: the lowest of those that are next, as long as there is one.
// Counted, and no `while let`: as many turns as places are enough (`release_from` counts them), and a `while` asks for a measure, the used places, besides.
#[tactic(auto, unfolding(crate::specs::Release::released))]
pub fn release(r: Record) -> Released
    ensures { result ≡ released r }
{
    let mut s = Released {
        after: r,
        order: [0; 4],
        count: 0,
        thrown: 0,
    };
    for _ in 0..r.places.len() {
        let Some(i) = lowest(&s.after.places, |p| is_next(s.after.reliable, *p)) else {
            break;
        };
        s = release_at(s, i);
    }
    s
}
