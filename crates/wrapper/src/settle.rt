// Steps 5 and 6 of a wrapper (specs/Settle): quiet, lost or standoff, and the ACK.
ghost use Rattle.std.specs.Prelude.{◌≡◌};
ghost use Rattle.wrapper.specs.Settle.{lost, begun, gapped, asked, spared, acknowledged, settled};

use crate::{Arrived, Reply, Settled};
use counter::{Counter, Reliable};
use gap::standoff_of;
use record::{Gap, Reason, Record};

// Whether what is missing can no longer be had.
#[tactic(auto, unfolding(crate::specs::Settle::lost))]
fn is_lost(r: Record, oldest: Reliable) -> bool
    ensures { result ≡ lost r oldest }
{
    2 <= r.reliable.distance_to(oldest)
}

// The standoff of a quiet channel; a phase that runs goes on.
fn begin(gap: Gap, time: u32) -> Gap
    ensures { result ≡ begun gap time }
{
    match gap {
        Gap::Quiet => Gap::Standoff {
            left: time,
            count: 0,
        },
        running => running,
    }
}

// Step 5: the record with its gap, or none if what is missing is lost.
#[tactic(auto, unfolding(crate::specs::Settle::gapped))]
fn gap_step(r: Record, oldest: Reliable) -> Option<Record>
    ensures { result ≡ gapped r oldest }
{
    if r.is_closed() {
        return Some(r.with_gap(Gap::Quiet));
    }
    if is_lost(r, oldest) {
        return None;
    }
    Some(r.with_gap(begin(r.gap, standoff_of(r))))
}

// Whether the wrapper asks this member for an ACK.
#[tactic(auto, unfolding(crate::specs::Settle::asked))]
fn is_asked(r: Record, w: Arrived) -> bool
    ensures { result ≡ asked r w }
{
    w.first <= r.terms.mid && r.terms.mid <= w.last
}

// Whether the threshold spares the ACK.
#[tactic(auto, unfolding(crate::specs::Settle::spared))]
fn is_spared(r: Record, w: Arrived) -> bool
    ensures { result ≡ spared r w }
{
    w.threshold != 0 && 1 <= w.reliable.before(w.threshold).distance_to(r.acked)
}

// Step 6.
#[tactic(auto, unfolding(crate::specs::Settle::acknowledged))]
fn acknowledge(r: Record, w: Arrived) -> Settled
    ensures { result ≡ acknowledged r w }
{
    if !is_asked(r, w) || is_spared(r, w) {
        return Settled {
            after: r,
            reply: Reply::Nothing,
        };
    }
    Settled {
        after: Record {
            acked: r.reliable,
            ..r
        },
        reply: Reply::Ack(r.reliable),
    }
}

// Steps 5 and 6: a channel that is left sends Leaving, and no ACK.
#[tactic(auto, unfolding(crate::specs::Settle::settled))]
pub fn settle(r: Record, w: Arrived) -> Settled
    ensures { result ≡ settled r w }
{
    match gap_step(r, w.oldest) {
        Some(after) => acknowledge(after, w),
        None => Settled {
            after: r.freed(),
            reply: Reply::Leaving(Reason::LostSequence.into(), r.reliable),
        },
    }
}
