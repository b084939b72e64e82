// A record and its places as lines: what a line sets, and the lines that say what a call has changed, or why it was refused.
use crate::Spelled;
use crate::misread::{Misread, Wanted};
use crate::reading::{Reader, Value};
use counter::{Reliable, Total};
use message::Cid;
use record::{Gap, Place, Record, Terms};
use refusal::Refusal;
use std::alloc::AllocError;
use std::fmt;

// ---- reading

// Never kept: `Setting::set_record` leaves the places. A type of the line without them would have all other fields of `Record` again, and copy each.
const FREE_PLACE: Place = Place {
    used: false,
    total: Total(0),
    reliable: Reliable(0),
    len: 0,
};

impl Value for Gap {
    fn read(r: &mut Reader<'_>) -> Result<Gap, Misread> {
        let at = r.at();
        match r.name() {
            "quiet" => Ok(Gap::Quiet),
            "standoff" => Ok(Gap::Standoff {
                left: r.value()?,
                count: r.value()?,
            }),
            "waiting" => Ok(Gap::Waiting {
                left: r.value()?,
                count: r.value()?,
            }),
            _ => Err(Misread::At(at, Wanted::Phase)),
        }
    }
}

// A used record, by the words of its line in their order: the counters stand between the names of the channel and its other terms. Its places are no
// part of its line: they are free.
impl Value for Record {
    fn read(r: &mut Reader<'_>) -> Result<Record, Misread> {
        let owner = r.field("owner")?;
        let channel = r.field("channel")?;
        let mid = r.field("mid")?;
        let reciprocal = r.field("reciprocal")?;
        let total = r.field("total")?;
        let reliable = r.field("reliable")?;
        let known = r.field("known")?;
        let acked = r.field("acked")?;
        let terms = Terms {
            owner,
            channel,
            mid,
            reciprocal,
            expiry: r.field("expiry")?,
            outbound: r.field("outbound")?,
            holdoff: r.field("holdoff")?,
            modulus: r.field("modulus")?,
            maxwait: r.field("maxwait")?,
        };
        Ok(Record {
            used: true,
            terms,
            total,
            reliable,
            known,
            acked,
            idle: r.field("idle")?,
            gap: r.field("gap")?,
            places: [FREE_PLACE; 4],
        })
    }
}

// ---- writing

impl fmt::Display for Spelled<Cid> {
    fn fmt<W: fmt::Write>(&self, f: &mut fmt::Formatter<W>) -> fmt::Result {
        write!(f, "{:016x}{:016x}", self.0.high, self.0.low)
    }
}

impl fmt::Display for Spelled<Gap> {
    fn fmt<W: fmt::Write>(&self, f: &mut fmt::Formatter<W>) -> fmt::Result {
        match self.0 {
            Gap::Quiet => f.write_str("quiet"),
            Gap::Standoff { left, count } => write!(f, "standoff {left} {count}"),
            Gap::Waiting { left, count } => write!(f, "waiting {left} {count}"),
        }
    }
}

// A refusal's number. Of a malformed block the place follows.
impl fmt::Display for Spelled<Refusal> {
    fn fmt<W: fmt::Write>(&self, f: &mut fmt::Formatter<W>) -> fmt::Result {
        match self.0 {
            Refusal::Malformed(at) => write!(f, "refused 11 at {at}"),
            refusal => write!(f, "refused {}", u8::from(refusal)),
        }
    }
}

// How a line says whether a record or a place is used.
fn used(used: bool) -> &'static str {
    if used { "used" } else { "free" }
}

// In the order of a record's line: the names of a channel, its counters, and the rest of its terms.
impl fmt::Display for Spelled<Record> {
    fn fmt<W: fmt::Write>(&self, f: &mut fmt::Formatter<W>) -> fmt::Result {
        let r = self.0;
        let t = r.terms;
        write!(
            f,
            "{} owner {} channel {} mid {} reciprocal {}",
            used(r.used),
            Spelled(t.owner),
            t.channel,
            t.mid,
            t.reciprocal
        )?;
        write!(
            f,
            " total {} reliable {} known {} acked {}",
            r.total.0, r.reliable.0, r.known.0, r.acked.0
        )?;
        write!(
            f,
            " expiry {} outbound {} holdoff {} modulus {} maxwait {}",
            t.expiry,
            u8::from(t.outbound),
            t.holdoff,
            t.modulus,
            t.maxwait
        )?;
        write!(f, " idle {} gap {}", r.idle, Spelled(r.gap))
    }
}

impl fmt::Display for Spelled<Place> {
    fn fmt<W: fmt::Write>(&self, f: &mut fmt::Formatter<W>) -> fmt::Result {
        let p = self.0;
        write!(
            f,
            "{} total {} reliable {} length {}",
            used(p.used),
            p.total.0,
            p.reliable.0,
            p.len
        )
    }
}

// A record that changed, and each of its places that did.
fn write_changed(
    said: &mut String,
    i: usize,
    before: &Record,
    after: &Record,
) -> Result<(), AllocError> {
    if before == after {
        return Ok(());
    }
    writeln!(said, "= record {i} {}", Spelled(*after))?;
    for (j, (p, q)) in before.places.iter().zip(&after.places).enumerate() {
        if p != q {
            writeln!(said, "= place {i} {j} {}", Spelled(*q))?;
        }
    }
    Ok(())
}

// Each record that a call changed.
pub fn write_changes(
    said: &mut String,
    before: &[Record; 8],
    after: &[Record; 8],
) -> Result<(), AllocError> {
    for (i, (r, s)) in before.iter().zip(after).enumerate() {
        write_changed(said, i, r, s)?;
    }
    Ok(())
}
