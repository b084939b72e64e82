// Eight records by value: which one has an owner and channel, which one is free, and whether the whole table is well formed.
// The table is a parameter `[Record; 8]` everywhere, as 01 has it ("first eight records by value"): of a struct, each contract would only say `table.0`.
#![tactic(auto)]

ghost use Rattle.std.specs.Prelude.{◌≡◌, ◌<◌, IfSome};
ghost use Rattle.table.specs.Table.{named, found, lowest_free, apart, table_formed, free_table};

use counter::{Reliable, Total};
use message::Cid;
use record::{Gap, Place, Record, Terms};

// A free record with every field 0. Written out: for this one value a derived default on it and each of its six types, in three crates, is no plainer.
const FREE: Record = Record {
    used: false,
    terms: Terms {
        owner: Cid { high: 0, low: 0 },
        channel: 0,
        mid: 0,
        reciprocal: 0,
        expiry: 0,
        outbound: false,
        holdoff: 0,
        modulus: 0,
        maxwait: 0,
    },
    total: Total(0),
    reliable: Reliable(0),
    known: Reliable(0),
    acked: Reliable(0),
    idle: 0,
    gap: Gap::Quiet,
    places: [Place {
        used: false,
        total: Total(0),
        reliable: Reliable(0),
        len: 0,
    }; 4],
};

// The first table: eight free records.
pub fn free_table() -> [Record; 8]
    ensures { result ≡ free_table }
{
    [FREE; 8]
}

// Whether a record is that of this owner and channel. A free record has none.
#[tactic(auto, unfolding(crate::specs::Table::named, crate::specs::Table::same))]
pub fn is_named(r: Record, owner: Cid, channel: u16) -> bool
    ensures { result ≡ named owner channel r }
{
    r.used && r.terms.owner == owner && r.terms.channel == channel
}

// The record of this owner and channel.
// The two stay parameters: the callers have them of a message or of a leave call, apart, and would make the pair for this search alone.
pub fn find(table: [Record; 8], owner: Cid, channel: u16) -> Option<usize>
    ensures first { result ≡ found owner channel table }
    ensures within { IfSome result (λ i. i < 8) }
{
    record::lowest(&table, |r| is_named(*r, owner, channel))
}

// The lowest free record.
pub fn find_free(table: [Record; 8]) -> Option<usize>
    ensures first { result ≡ lowest_free table }
    ensures within { IfSome result (λ i. i < 8) }
{
    record::lowest(&table, |r| !r.used)
}

// Whether s has not the owner and channel of the used record r.
fn is_apart(r: Record, s: Record) -> bool
    ensures { result ≡ apart r s }
{
    !(r.used && is_named(s, r.terms.owner, r.terms.channel))
}

// Whether the table is well formed: each record by itself, and used records differ in owner and channel.
pub fn is_formed(table: [Record; 8]) -> bool
    ensures { result ≡ table_formed table }
{
    table.iter().all(|r| r.is_well_formed()) && record::all_apart(&table, |r, s| is_apart(*r, *s))
}
