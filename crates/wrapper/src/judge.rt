// Steps 1 and 2 of a wrapper (specs/Judge): whether it is refused, and that the owner was heard.
ghost use Rattle.std.specs.Prelude.{◌≡◌};
ghost use Rattle.wrapper.specs.Judge.{consistent, judged, farther, heard};

use counter::{Counter, Reliable, Total};
use record::Record;
use refusal::Refusal;

// Whether a wrapper that is not old is consistent, by the distances.
#[tactic(auto, unfolding(crate::specs::Judge::consistent))]
fn is_consistent(reliably: bool, d: i32, e: i32) -> bool
    ensures { result ≡ consistent reliably d e }
{
    if reliably {
        1 <= e && e <= d
    } else {
        0 <= e && e < d
    }
}

// Step 1: refused as old or as inconsistent, or let pass.
#[tactic(auto, unfolding(crate::specs::Judge::judged, crate::specs::Judge::judged_by))]
pub fn judge(r: Record, reliably: bool, total: Total, reliable: Reliable) -> Result<(), Refusal>
    ensures { result ≡ judged r reliably total reliable }
{
    let d = r.total.distance_to(total);
    if d <= 0 {
        return Err(Refusal::Old);
    }
    if !is_consistent(reliably, d, r.reliable.distance_to(reliable)) {
        return Err(Refusal::Inconsistent);
    }
    Ok(())
}

// Of K and a number, the one that is farther from R.
#[tactic(auto, unfolding(crate::specs::Judge::farther))]
fn farther_of(reliable: Reliable, known: Reliable, n: Reliable) -> Reliable
    ensures { result ≡ farther reliable known n }
{
    if reliable.distance_to(known) < reliable.distance_to(n) {
        n
    } else {
        known
    }
}

// Step 2.
#[tactic(auto, unfolding(crate::specs::Judge::heard))]
pub fn hear(r: Record, n: Reliable) -> Record
    ensures { result ≡ heard r n }
{
    Record {
        idle: 0,
        known: farther_of(r.reliable, r.known, n),
        ..r
    }
}
