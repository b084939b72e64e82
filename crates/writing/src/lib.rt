// Writing the nine messages: each as one PDU, with V, H and D set and the short length, at the front of a lent room.
#![tactic(auto)]

ghost use Rattle.std.specs.Prelude.{◌≡◌, ◌+◌, ◌<◌, ◌≤◌, length, [], ◌∷◌};
ghost use Rattle.octets.specs.Octets.{octets, splice, joined};
ghost use Rattle.block.specs.Written.{head};
ghost use Rattle.writing.specs.Fields.{cid_octets, membership_octets, wrapper_octets, parameters_octets, address_octets, join_octets, fields_of};
ghost use Rattle.writing.specs.Writing.{type_of, vector_of, address_of, contents_of};
ghost use Rattle.writing.specs.Allowed.{WriteMessageAllows};

use counter::Reliable;
use message::{
    Address, Cid, Join, MOST_CONTENTS, Membership, Message, Parameters, Wrapper, length_of,
};
use octets::{Field, copy_into};
use refusal::Refusal;

// The flags V, H and D of a PDU, in the number that flags and short length are together.
const V_H_D: usize = 28672;

// The type of an address as a row of the table has it; 2 is no row's. It is a number, since `has_form`, on which theorems on writing stand
// (`written_again` of demands), compares it with 2.
fn type_of(address: Address) -> u8
    ensures { result ≡ type_of address }
{
    match address {
        Address::Null(_) => message::ADDRESS_NULL,
        Address::Ipv4(_, _) => message::ADDRESS_IPV4,
        Address::Other(_) => 2,
    }
}

#[tactic(auto, unfolding(crate::specs::Writing::vector_of))]
fn vector_of(m: Message) -> u8
    ensures { result ≡ vector_of m }
{
    match m {
        Message::ReliableWrapper(_) => message::RELIABLE_WRAPPER,
        Message::UnreliableWrapper(_) => message::UNRELIABLE_WRAPPER,
        Message::Join(_) => message::JOIN,
        Message::JoinRefuse { .. } => message::JOIN_REFUSE,
        Message::JoinAccept { .. } => message::JOIN_ACCEPT,
        Message::Leaving { .. } => message::LEAVING,
        Message::Ack(_) => message::ACK,
        Message::Nak { .. } => message::NAK,
        Message::GetSessions(_) => message::GET_SESSIONS,
    }
}

// The type of a message's address; one that has no address counts as one with a null address.
#[tactic(auto, unfolding(crate::specs::Writing::address_of))]
fn address_of(m: Message) -> u8
    ensures { result ≡ address_of m }
{
    match m {
        Message::Join(j) => type_of(j.address),
        _ => message::ADDRESS_NULL,
    }
}

// Each of these writes behind the place `at` and answers the place behind what it wrote. Room and place are two parameters, since a struct with
// the lent room in it would have each of them promise too that it still holds the same room (the new form is no plainer).
fn put_cid(room: &mut [u8], at: usize, c: Cid) -> usize
    requires { at + 16 ≤ length room.old }
    ensures { (room.new ≡ splice room.old at (cid_octets c)) × (result ≡ at + 16) }
{
    let at = c.high.put(room, at);
    c.low.put(room, at)
}

fn put_membership(room: &mut [u8], at: usize, m: Membership) -> usize
    requires { at + 24 ≤ length room.old }
    ensures { (room.new ≡ splice room.old at (membership_octets m)) × (result ≡ at + 24) }
{
    let at = put_cid(room, at, m.leader);
    let at = m.channel.put(room, at);
    let at = m.mid.put(room, at);
    m.reliable.0.put(room, at)
}

fn put_wrapper(room: &mut [u8], at: usize, w: Wrapper) -> usize
    requires { at + 20 ≤ length room.old }
    ensures { (room.new ≡ splice room.old at (wrapper_octets w)) × (result ≡ at + 20) }
{
    let at = w.channel.put(room, at);
    let at = w.total.0.put(room, at);
    let at = w.reliable.0.put(room, at);
    let at = w.oldest.0.put(room, at);
    let at = w.first.put(room, at);
    let at = w.last.put(room, at);
    w.threshold.put(room, at)
}

fn put_parameters(room: &mut [u8], at: usize, p: Parameters) -> usize
    requires { at + 9 ≤ length room.old }
    ensures { (room.new ≡ splice room.old at (parameters_octets p)) × (result ≡ at + 9) }
{
    let at = p.expiry.put(room, at);
    let at = p.flags.put(room, at);
    let at = p.holdoff.put(room, at);
    let at = p.modulus.put(room, at);
    let at = p.maxwait.put(room, at);
    p.adhoc.put(room, at)
}

// An address and what follows it. One with no written form is written as nothing.
#[tactic(auto, using(crate::proofs::Forms::address_lengths))]
fn put_address(room: &mut [u8], at: usize, address: Address) -> usize
    requires { at + length (address_octets address) ≤ length room.old }
    ensures { (room.new ≡ splice room.old at (address_octets address)) × (result ≡ at + length (address_octets address)) }
{
    match address {
        Address::Null(p) => {
            let at = message::ADDRESS_NULL.put(room, at);
            put_parameters(room, at, p)
        }
        Address::Ipv4(e, p) => {
            let at = message::ADDRESS_IPV4.put(room, at);
            let at = e.port.put(room, at);
            let at = e.host.put(room, at);
            put_parameters(room, at, p)
        }
        Address::Other(_) => at,
    }
}

#[tactic(auto, using(crate::proofs::Forms::join_length))]
fn put_join(room: &mut [u8], at: usize, j: Join) -> usize
    requires { at + length (join_octets j) ≤ length room.old }
    ensures { (room.new ≡ splice room.old at (join_octets j)) × (result ≡ at + length (join_octets j)) }
{
    let at = put_cid(room, at, j.cid);
    let at = j.mid.put(room, at);
    let at = j.channel.put(room, at);
    let at = j.reciprocal.put(room, at);
    let at = j.total.0.put(room, at);
    let at = j.reliable.0.put(room, at);
    put_address(room, at, j.address)
}

// A membership and the one field that follows it: the reason of a Join Refuse or a Leaving, or the reciprocal of a Join Accept.
fn put_member<F: Field>(room: &mut [u8], at: usize, m: Membership, field: F) -> usize
    requires { at + 24 + F.width ≤ length room.old }
    ensures { (room.new ≡ splice room.old at (joined (membership_octets m ∷ octets F.width (F.value field) ∷ []))) × (result ≡ at + 24 + F.width) }
{
    let at = put_membership(room, at, m);
    field.put(room, at)
}

fn put_nak(room: &mut [u8], at: usize, m: Membership, first: Reliable, last: Reliable) -> usize
    requires { at + 32 ≤ length room.old }
    ensures { (room.new ≡ splice room.old at (joined (membership_octets m ∷ octets 4 first.0 ∷ octets 4 last.0 ∷ []))) × (result ≡ at + 32) }
{
    let at = put_membership(room, at, m);
    let at = first.0.put(room, at);
    last.0.put(room, at)
}

// A message's own fields; contents are not among them.
#[inline(always)]
#[tactic(auto, using(crate::proofs::Forms::fields_lengths), unfolding(crate::specs::Fields::fields_of))]
fn put_fields(room: &mut [u8], at: usize, m: Message) -> usize
    requires { at + length (fields_of m) ≤ length room.old }
    ensures { (room.new ≡ splice room.old at (fields_of m)) × (result ≡ at + length (fields_of m)) }
{
    match m {
        Message::ReliableWrapper(w) | Message::UnreliableWrapper(w) => put_wrapper(room, at, w),
        Message::Join(j) => put_join(room, at, j),
        Message::JoinRefuse { member, reason } | Message::Leaving { member, reason } => {
            put_member(room, at, member, reason)
        }
        Message::JoinAccept { member, reciprocal } => put_member(room, at, member, reciprocal),
        Message::Ack(r) => r.0.put(room, at),
        Message::Nak {
            member,
            first,
            last,
        } => put_nak(room, at, member, first, last),
        Message::GetSessions(c) => put_cid(room, at, c),
    }
}

// Flags, length and vector of a PDU of `size` octets.
fn put_head(room: &mut [u8], size: usize, vector: u8) -> usize
    requires in_bounds { 3 ≤ length room.old }
    requires size_bound { size < 4096 }
    ensures { (room.new ≡ splice room.old 0 (head size vector)) × (result ≡ 3) }
{
    let at = ((V_H_D + size) as u16).put(room, 0);
    vector.put(room, at)
}

// The contents that are written: a wrapper's are all, and of any other message none.
#[tactic(auto, using(crate::proofs::Forms::wrapper_contents), unfolding(crate::specs::Writing::carried_of))]
fn contents_of<'a>(m: Message, contents: &'a [u8]) -> &'a [u8]
    ensures { result.now ≡ contents_of m contents.now }
{
    match m {
        Message::ReliableWrapper(_) | Message::UnreliableWrapper(_) => contents,
        _ => b"",
    }
}

// Writes a message at the front of the room, with contents if it is a wrapper. A refusal leaves the room as it was.
#[inline(always)]
pub fn write_message(m: Message, contents: &[u8], room: &mut [u8]) -> Result<usize, Refusal>
    ensures { WriteMessageAllows m contents.now room.old (record { answer = result; room = room.new }) }
{
    let vector = vector_of(m);
    let len = length_of(vector, address_of(m)).ok_or(Refusal::NoForm)?;
    let contents = contents_of(m, contents);
    let end = 3 + len;
    if room.len() < end || room.len() - end < contents.len() {
        return Err(Refusal::WrongSize);
    }
    if MOST_CONTENTS < contents.len() {
        return Err(Refusal::ContentsOver);
    }
    let size = end + contents.len();
    let at = put_head(room, size, vector);
    let at = put_fields(room, at, m);
    copy_into(room, at, contents);
    Ok(size)
}
