// Joining and leaving of one channel: what a Join is answered, the record that it makes, and the messages that a member sends.
#![tactic(auto)]

ghost use Rattle.std.specs.Prelude.{◌≡◌};
ghost use Rattle.joining.specs.Joining.{existing_of, legal_block, legal_address, legal, decide_new, decide_for, decided, new_record};
ghost use Rattle.joining.specs.Replies.{member_at, asked_at, join_refuse_of, acceptance, departure, missing};

use counter::Reliable;
use message::{Address, Cid, Join, Membership, Message, Parameters};
use record::{Gap, Reason, Record, Terms, legal_names, legal_parameters};

// What the table has for a Join's owner and channel, if it has a record of them: the record's MID, R and reciprocal number.
#[derive(Clone, Copy, Debug, PartialEq, Eq)]
pub struct Existing {
    pub mid: u16,
    pub reliable: Reliable,
    pub reciprocal: u16,
}

impl From<Record> for Existing {
    ghost from_gives = { λ r e. e ≡ existing_of r };

    fn from(r: Record) -> Existing {
        Existing {
            mid: r.terms.mid,
            reliable: r.reliable,
            reciprocal: r.terms.reciprocal,
        }
    }
}

// What a Join is answered: Join Refuse with a reason, Join Accept again with the record's numbers, or a new record with these parameters.
// The reason is the message's number: `put_join_reply` (sending), which docs/DEMANDS.md names, takes any octet, and a `Reason` would ask more of callers.
#[derive(Clone, Copy)]
pub enum Decision {
    Refuse(u8),
    Again { reliable: Reliable, reciprocal: u16 },
    Make(Parameters),
}

// N is the top bit of the flags, taken by % and / here and in `new_record`: a mask for & would be one name more (no plainer).
#[tactic(auto, unfolding(crate::specs::Joining::legal_block))]
fn legal_block(p: Parameters) -> bool
    ensures { result ≡ legal_block p }
{
    legal_parameters(p.modulus, p.expiry) && p.flags % 128 == 0
}

fn legal_address(address: Address) -> bool
    ensures { result ≡ legal_address address }
{
    match address {
        Address::Null(p) | Address::Ipv4(_, p) => legal_block(p),
        Address::Other(_) => true,
    }
}

#[tactic(auto, unfolding(crate::specs::Joining::legal))]
fn is_legal(j: Join) -> bool
    ensures { result ≡ legal j }
{
    legal_names(j.channel, j.mid) && legal_address(j.address)
}

#[tactic(auto, unfolding(crate::specs::Joining::decide_new))]
fn decide_new(p: Parameters, reciprocal: u16, free: bool) -> Decision
    ensures { result ≡ decide_new p reciprocal free }
{
    if reciprocal == 0 {
        return Decision::Refuse(Reason::NoReciprocal.into());
    }
    if free {
        Decision::Make(p)
    } else {
        Decision::Refuse(Reason::LowResources.into())
    }
}

fn decide_for(
    existing: Option<Existing>,
    asked: u16,
    p: Parameters,
    reciprocal: u16,
    free: bool,
) -> Decision
    ensures { result ≡ decide_for existing asked p reciprocal free }
{
    match existing {
        None => decide_new(p, reciprocal, free),
        Some(known) if known.mid == asked => Decision::Again {
            reliable: known.reliable,
            reciprocal: known.reciprocal,
        },
        Some(_) => Decision::Refuse(Reason::AlreadyMember.into()),
    }
}

// What a Join is answered.
// `free` is a truth value, and no place to take: the decision is of one channel and does not know the table (`depends`, proofs/Depends).
#[tactic(auto, unfolding(crate::specs::Joining::decided))]
pub fn decide(j: Join, existing: Option<Existing>, reciprocal: u16, free: bool) -> Decision
    ensures { result ≡ decided j existing reciprocal free }
{
    if !is_legal(j) {
        return Decision::Refuse(Reason::IllegalParameters.into());
    }
    match j.address {
        Address::Null(p) | Address::Ipv4(_, p) => {
            decide_for(existing, j.mid, p, reciprocal, free)
        }
        Address::Other(_) => Decision::Refuse(Reason::BadAddress.into()),
    }
}

// The record that a Join makes of a free one.
#[tactic(auto, unfolding(crate::specs::Joining::new_record))]
pub fn new_record(old: Record, owner: Cid, j: Join, p: Parameters, reciprocal: u16) -> Record
    ensures { result ≡ new_record old owner j p reciprocal }
{
    Record {
        used: true,
        terms: Terms {
            owner,
            channel: j.channel,
            mid: j.mid,
            reciprocal,
            expiry: p.expiry,
            outbound: p.flags / 128 == 1,
            holdoff: p.holdoff,
            modulus: p.modulus,
            maxwait: p.maxwait,
        },
        total: j.total,
        reliable: j.reliable,
        known: j.reliable,
        acked: j.reliable,
        idle: 0,
        gap: Gap::Quiet,
        places: old.places.map(|place| place.freed()),
    }
}

// A record's channel at a reliable number, as a message names it.
// Apart from `asked_at`: one function of what both have would take leader, channel, MID and number, which is the struct's literal.
#[tactic(auto, unfolding(crate::specs::Replies::member_at))]
fn member_at(t: Terms, reliable: Reliable) -> Membership
    ensures { result ≡ member_at t reliable }
{
    Membership {
        leader: t.owner,
        channel: t.channel,
        mid: t.mid,
        reliable,
    }
}

// The same of a Join that has no record yet.
#[tactic(auto, unfolding(crate::specs::Replies::asked_at))]
fn asked_at(owner: Cid, j: Join, reliable: Reliable) -> Membership
    ensures { result ≡ asked_at owner j reliable }
{
    Membership {
        leader: owner,
        channel: j.channel,
        mid: j.mid,
        reliable,
    }
}

// The Join Refuse of a Join. The reason is the message's number, since docs/DEMANDS.md names `join_refuse_of`, and a `Reason` would ask more of callers.
#[tactic(auto, unfolding(crate::specs::Replies::join_refuse_of))]
pub fn join_refuse_of(owner: Cid, j: Join, reason: u8) -> Message
    ensures { result ≡ join_refuse_of owner j reason }
{
    Message::JoinRefuse {
        member: asked_at(owner, j, j.reliable),
        reason,
    }
}

// The Join Accept of a Join.
#[tactic(auto, unfolding(crate::specs::Replies::acceptance))]
pub fn acceptance_of(owner: Cid, j: Join, reliable: Reliable, reciprocal: u16) -> Message
    ensures { result ≡ acceptance owner j reliable reciprocal }
{
    Message::JoinAccept {
        member: asked_at(owner, j, reliable),
        reciprocal,
    }
}

// The Leaving of a channel, with its reason as the message's number, as in `join_refuse_of`.
#[tactic(auto, unfolding(crate::specs::Replies::departure))]
pub fn departure_of(t: Terms, reliable: Reliable, reason: u8) -> Message
    ensures { result ≡ departure t reliable reason }
{
    Message::Leaving {
        member: member_at(t, reliable),
        reason,
    }
}

// The NAK of a channel.
#[tactic(auto, unfolding(crate::specs::Replies::missing))]
pub fn nak_of(t: Terms, reliable: Reliable, first: Reliable, last: Reliable) -> Message
    ensures { result ≡ missing t reliable first last }
{
    Message::Nak {
        member: member_at(t, reliable),
        first,
        last,
    }
}
