// The nine messages that the controller reads: their fields, the one table of their data lengths, and reading them.
#![tactic(auto)]

ghost use Rattle.std.specs.Prelude.{◌≡◌, true, ◌+◌, ◌≤◌, length, IfSome};
ghost use Rattle.message.specs.Lengths.{join_refuse, length_of};
ghost use Rattle.message.specs.Layouts.{cid_at, membership_of, wrapper_of, parameters_at, endpoint_at, address_of, join_of};
ghost use Rattle.message.specs.Reading.{readable_join, readable, fixed_of, message_of};
ghost use Rattle.message.specs.Allowed.{ReadMessageAllows};

use counter::{Reliable, Total};
use octets::Field;
use refusal::Refusal;

// A component's identifier: its 16 octets as two numbers, so that it compares in two tests.
#[repr(C)]
#[derive(Clone, Copy, Debug, PartialEq, Eq)]
pub struct Cid {
    pub high: u64,
    pub low: u64,
}

// Which member of which channel speaks: what Join Accept, Join Refuse, Leaving and NAK begin with.
#[derive(Clone, Copy)]
pub struct Membership {
    pub leader: Cid,
    pub channel: u16,
    pub mid: u16,
    pub reliable: Reliable,
}

// What follows the address of a Join: the channel's parameters and the ad-hoc expiry. `flags` has N as its top bit, and reserved bits.
#[repr(C)]
#[derive(Clone, Copy)]
pub struct Parameters {
    pub expiry: u8,
    pub flags: u8,
    pub holdoff: u16,
    pub modulus: u16,
    pub maxwait: u16,
    pub adhoc: u8,
}

// An IPv4 address with its UDP port.
#[derive(Clone, Copy)]
pub struct Endpoint {
    pub port: u16,
    pub host: u32,
}

// A Join's destination address with what follows it. Of a Join with another address type only the type is known.
#[derive(Clone, Copy)]
pub enum Address {
    Null(Parameters),
    Ipv4(Endpoint, Parameters),
    Other(u8),
}

#[derive(Clone, Copy)]
pub struct Join {
    pub cid: Cid,
    pub mid: u16,
    pub channel: u16,
    pub reciprocal: u16,
    pub total: Total,
    pub reliable: Reliable,
    pub address: Address,
}

// A wrapper's own fields; its contents are the rest of its data.
#[derive(Clone, Copy)]
pub struct Wrapper {
    pub channel: u16,
    pub total: Total,
    pub reliable: Reliable,
    pub oldest: Reliable,
    pub first: u16,
    pub last: u16,
    pub threshold: u16,
}

#[derive(Clone, Copy)]
pub enum Message {
    ReliableWrapper(Wrapper),
    UnreliableWrapper(Wrapper),
    Join(Join),
    JoinRefuse {
        member: Membership,
        reason: u8,
    },
    JoinAccept {
        member: Membership,
        reciprocal: u16,
    },
    Leaving {
        member: Membership,
        reason: u8,
    },
    Ack(Reliable),
    Nak {
        member: Membership,
        first: Reliable,
        last: Reliable,
    },
    GetSessions(Cid),
}

// The vectors of the nine messages. They are numbers and no enum, since any octet may stand in a vector's place, C passes it (sdt_read_message), and
// the table that 01 asks for has it.
pub const RELIABLE_WRAPPER: u8 = 1;

pub const UNRELIABLE_WRAPPER: u8 = 2;

pub const JOIN: u8 = 4;

pub const JOIN_REFUSE: u8 = 5;

pub const JOIN_ACCEPT: u8 = 6;

pub const LEAVING: u8 = 8;

pub const ACK: u8 = 14;

pub const NAK: u8 = 15;

pub const GET_SESSIONS: u8 = 16;

// The address types that have a written form: numbers, for the same reason.
pub const ADDRESS_NULL: u8 = 0;

pub const ADDRESS_IPV4: u8 = 1;

// Wrapper contents are at most this many octets.
pub const MOST_CONTENTS: usize = 1454;

// A row of the table: a message's vector, the type of its address (null if it has none), and the exact length of its data.
#[derive(Clone, Copy)]
pub struct Row {
    pub vector: u8,
    pub address: u8,
    pub len: usize,
}

// The one table of data lengths, for reader and writer, in the order of 01. A wrapper's length is without its contents.
const ROWS: [Row; 10] = [
    Row {
        vector: JOIN,
        address: ADDRESS_NULL,
        len: 40,
    },
    Row {
        vector: JOIN,
        address: ADDRESS_IPV4,
        len: 46,
    },
    Row {
        vector: JOIN_ACCEPT,
        address: ADDRESS_NULL,
        len: 26,
    },
    Row {
        vector: JOIN_REFUSE,
        address: ADDRESS_NULL,
        len: 25,
    },
    Row {
        vector: LEAVING,
        address: ADDRESS_NULL,
        len: 25,
    },
    Row {
        vector: NAK,
        address: ADDRESS_NULL,
        len: 32,
    },
    Row {
        vector: GET_SESSIONS,
        address: ADDRESS_NULL,
        len: 16,
    },
    Row {
        vector: ACK,
        address: ADDRESS_NULL,
        len: 4,
    },
    Row {
        vector: RELIABLE_WRAPPER,
        address: ADDRESS_NULL,
        len: 20,
    },
    Row {
        vector: UNRELIABLE_WRAPPER,
        address: ADDRESS_NULL,
        len: 20,
    },
];

// The data length of a vector's message with an address of this type: 0 is null (or no address), 1 is IPv4. None if no row has it.
#[tactic(auto, using(crate::proofs::Lengths::at_most_46), unfolding(crate::specs::Lengths::length_of, crate::specs::Lengths::look))]
pub fn length_of(vector: u8, address: u8) -> Option<usize>
    ensures length { result ≡ length_of vector address }
    ensures at_most_46 { IfSome result (λ len. len ≤ 46) }
{
    ROWS.iter()
        .find(|row| row.vector == vector && row.address == address)
        .map(|row| row.len)
}

// Whether data is that of a Join: one with a null or an IPv4 address has its exact length, and any other its first 31 octets.
#[tactic(auto, unfolding(crate::specs::Reading::readable_join))]
fn readable_join(body: &[u8]) -> bool
    ensures { result ≡ readable_join body.now }
{
    if body.len() < 31 {
        return false;
    }
    let address = body[30];
    ADDRESS_IPV4 < address || length_of(JOIN, address) == Some(body.len())
}

// Whether a message can be read: its vector is one of the nine, and its data has a length and an address form of the table.
#[tactic(auto, unfolding(crate::specs::Reading::readable))]
fn is_readable(vector: u8, body: &[u8]) -> bool
    ensures { result ≡ readable vector body.now }
{
    let of_row = length_of(vector, ADDRESS_NULL);
    match vector {
        JOIN => readable_join(body),
        RELIABLE_WRAPPER | UNRELIABLE_WRAPPER => of_row.is_some_and(|least| least <= body.len()),
        _ => of_row == Some(body.len()),
    }
}

// The CID that stands at `at`.
#[tactic(auto, unfolding(crate::specs::Layouts::cid_at))]
pub fn cid_at(s: &[u8], at: usize) -> Cid
    requires { at + 16 ≤ length s.now }
    ensures { result ≡ cid_at s.now at }
{
    Cid {
        high: u64::at(s, at),
        low: u64::at(s, at + 8),
    }
}

#[tactic(auto, unfolding(crate::specs::Layouts::membership_of))]
fn membership_of(body: &[u8]) -> Membership
    requires { 24 ≤ length body.now }
    ensures { result ≡ membership_of body.now }
{
    Membership {
        leader: cid_at(body, 0),
        channel: u16::at(body, 16),
        mid: u16::at(body, 18),
        reliable: Reliable(u32::at(body, 20)),
    }
}

#[tactic(auto, unfolding(crate::specs::Layouts::wrapper_of))]
fn wrapper_of(body: &[u8]) -> Wrapper
    requires { 20 ≤ length body.now }
    ensures { result ≡ wrapper_of body.now }
{
    Wrapper {
        channel: u16::at(body, 0),
        total: Total(u32::at(body, 2)),
        reliable: Reliable(u32::at(body, 6)),
        oldest: Reliable(u32::at(body, 10)),
        first: u16::at(body, 14),
        last: u16::at(body, 16),
        threshold: u16::at(body, 18),
    }
}

#[tactic(auto, unfolding(crate::specs::Layouts::parameters_at))]
fn parameters_at(s: &[u8], at: usize) -> Parameters
    requires { at + 9 ≤ length s.now }
    ensures { result ≡ parameters_at s.now at }
{
    Parameters {
        expiry: s[at],
        flags: s[at + 1],
        holdoff: u16::at(s, at + 2),
        modulus: u16::at(s, at + 4),
        maxwait: u16::at(s, at + 6),
        adhoc: s[at + 8],
    }
}

#[tactic(auto, unfolding(crate::specs::Layouts::endpoint_at))]
fn endpoint_at(s: &[u8], at: usize) -> Endpoint
    requires { at + 6 ≤ length s.now }
    ensures { result ≡ endpoint_at s.now at }
{
    Endpoint {
        port: u16::at(s, at),
        host: u32::at(s, at + 2),
    }
}

// The address of a Join's data and what follows it.
#[tactic(auto, using(crate::proofs::Readable::join_length, crate::proofs::Readable::null_length, crate::proofs::Readable::ipv4_length), unfolding(crate::specs::Layouts::address_of))]
fn address_of(body: &[u8]) -> Address
    requires { readable_join body.now ≡ true }
    ensures { result ≡ address_of body.now }
{
    match body[30] {
        ADDRESS_NULL => Address::Null(parameters_at(body, 31)),
        ADDRESS_IPV4 => Address::Ipv4(endpoint_at(body, 31), parameters_at(body, 37)),
        kind => Address::Other(kind),
    }
}

#[tactic(auto, using(crate::proofs::Readable::join_length), unfolding(crate::specs::Layouts::join_of))]
fn join_of(body: &[u8]) -> Join
    requires { readable_join body.now ≡ true }
    ensures { result ≡ join_of body.now }
{
    Join {
        cid: cid_at(body, 0),
        mid: u16::at(body, 16),
        channel: u16::at(body, 18),
        reciprocal: u16::at(body, 20),
        total: Total(u32::at(body, 22)),
        reliable: Reliable(u32::at(body, 26)),
        address: address_of(body),
    }
}

// A readable message whose data length is fixed. Its vector is a number (above), so that it is one of the last six is asked of it as an order of
// numbers, and the last arm is the vector that is left.
#[tactic(auto, using(crate::proofs::Readable::fixed_lengths), unfolding(crate::specs::Reading::fixed_of))]
fn fixed_of(vector: u8, body: &[u8]) -> Message
    requires body_value { readable vector body.now ≡ true }
    requires join_refuse_le_vector { join_refuse ≤ vector }
    ensures { result ≡ fixed_of vector body.now }
{
    match vector {
        JOIN_REFUSE => Message::JoinRefuse {
            member: membership_of(body),
            reason: body[24],
        },
        JOIN_ACCEPT => Message::JoinAccept {
            member: membership_of(body),
            reciprocal: u16::at(body, 24),
        },
        LEAVING => Message::Leaving {
            member: membership_of(body),
            reason: body[24],
        },
        ACK => Message::Ack(Reliable(u32::at(body, 0))),
        NAK => Message::Nak {
            member: membership_of(body),
            first: Reliable(u32::at(body, 24)),
            last: Reliable(u32::at(body, 28)),
        },
        _ => Message::GetSessions(cid_at(body, 0)),
    }
}

// A readable message.
#[inline(always)]
#[tactic(auto, using(crate::proofs::Readable::lengths), unfolding(crate::specs::Reading::message_of))]
fn message_of(vector: u8, body: &[u8]) -> Message
    requires { readable vector body.now ≡ true }
    ensures { result ≡ message_of vector body.now }
{
    match vector {
        RELIABLE_WRAPPER => Message::ReliableWrapper(wrapper_of(body)),
        UNRELIABLE_WRAPPER => Message::UnreliableWrapper(wrapper_of(body)),
        JOIN => Message::Join(join_of(body)),
        _ => fixed_of(vector, body),
    }
}

// The message of this vector and data. A wrapper's contents are its data past the first 20 octets.
#[inline(always)]
#[tactic(auto, unfolding(crate::specs::Reading::read_message))]
pub fn read_message(vector: u8, body: &[u8]) -> Result<Message, Refusal>
    ensures { ReadMessageAllows vector body.now result }
{
    if !is_readable(vector, body) {
        return Err(Refusal::NoForm);
    }
    Ok(message_of(vector, body))
}
