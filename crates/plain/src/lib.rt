// A message as a struct of numbers, as C passes and receives it (sdt_write_message, sdt_read_message in include/sdt.h), and back. The structs here are
// C's, in names and fields: so the vector and the address type are numbers with values beside them, and what is absent is 0.
#![tactic(auto)]

ghost use Rattle.std.specs.Prelude.{◌≡◌, ok_or};
ghost use Rattle.plain.specs.Messages.{member_subject, wrapper_plain, join_plain, plain_of, address_of, member_of, wrapper_of, join_of, typed_of};
ghost use Rattle.refusal.specs.declared.Refusal.TheVariants.{NoForm};

use counter::{Reliable, Total};
use message::{Address, Cid, Endpoint, Join, Membership, Message, Parameters, Wrapper};
use refusal::Refusal;

// Whom a message concerns: a component, a channel, a member, and the reliable number that it names.
#[repr(C)]
#[derive(Clone, Copy)]
pub struct Subject {
    pub cid: Cid,
    pub reliable: u32,
    pub channel: u16,
    pub mid: u16,
}

// A wrapper's total number (a Join's too), oldest available, members to acknowledge, and threshold.
#[repr(C)]
#[derive(Clone, Copy)]
pub struct Order {
    pub total: u32,
    pub oldest: u32,
    pub first: u16,
    pub last: u16,
    pub threshold: u16,
}

// The range of a NAK.
#[repr(C)]
#[derive(Clone, Copy)]
pub struct Missed {
    pub first: u32,
    pub last: u32,
}

// A Join's destination: the address type, and port and host where it is IPv4.
#[repr(C)]
#[derive(Clone, Copy)]
pub struct Destination {
    pub host: u32,
    pub port: u16,
    pub kind: u8,
}

// Any of the nine messages: `vector` says which. What a message does not have is 0.
#[repr(C)]
#[derive(Clone, Copy)]
pub struct Plain {
    pub vector: u8,
    pub reason: u8,
    pub reciprocal: u16,
    pub missed: Missed,
    pub subject: Subject,
    pub order: Order,
    pub destination: Destination,
    pub parameters: Parameters,
}

// No message: every number is 0.
pub const EMPTY: Plain = Plain {
    vector: 0,
    reason: 0,
    reciprocal: 0,
    missed: Missed { first: 0, last: 0 },
    subject: Subject {
        cid: Cid { high: 0, low: 0 },
        reliable: 0,
        channel: 0,
        mid: 0,
    },
    order: Order {
        total: 0,
        oldest: 0,
        first: 0,
        last: 0,
        threshold: 0,
    },
    destination: Destination {
        host: 0,
        port: 0,
        kind: 0,
    },
    parameters: Parameters {
        expiry: 0,
        flags: 0,
        holdoff: 0,
        modulus: 0,
        maxwait: 0,
        adhoc: 0,
    },
};

impl From<Membership> for Subject {
    ghost from_gives = { λ m s. s ≡ member_subject m };

    fn from(m: Membership) -> Subject {
        Subject {
            cid: m.leader,
            reliable: m.reliable.0,
            channel: m.channel,
            mid: m.mid,
        }
    }
}

impl From<Subject> for Membership {
    ghost from_gives = { λ s m. m ≡ member_of s };

    fn from(s: Subject) -> Membership {
        Membership {
            leader: s.cid,
            channel: s.channel,
            mid: s.mid,
            reliable: Reliable(s.reliable),
        }
    }
}

// A wrapper with its vector as numbers. This, `address_of` and `wrapper_of` convert two values each: From of a pair would be no plainer.
fn wrapper_plain(vector: u8, w: Wrapper) -> Plain
    ensures { result ≡ wrapper_plain vector w }
{
    Plain {
        vector,
        subject: Subject {
            reliable: w.reliable.0,
            channel: w.channel,
            ..EMPTY.subject
        },
        order: Order {
            total: w.total.0,
            oldest: w.oldest.0,
            first: w.first,
            last: w.last,
            threshold: w.threshold,
        },
        ..EMPTY
    }
}

impl From<Join> for Plain {
    ghost from_gives = { λ j p. p ≡ join_plain j };

    #[inline(always)]
    #[tactic(auto, unfolding(crate::specs::Messages::join_plain))]
    fn from(j: Join) -> Plain {
        let (destination, parameters) = match j.address {
            Address::Null(p) => (EMPTY.destination, p),
            Address::Ipv4(e, p) => (
                Destination {
                    host: e.host,
                    port: e.port,
                    kind: message::ADDRESS_IPV4,
                },
                p,
            ),
            Address::Other(kind) => (
                Destination {
                    kind,
                    ..EMPTY.destination
                },
                EMPTY.parameters,
            ),
        };
        Plain {
            vector: message::JOIN,
            reciprocal: j.reciprocal,
            subject: Subject {
                cid: j.cid,
                reliable: j.reliable.0,
                channel: j.channel,
                mid: j.mid,
            },
            order: Order {
                total: j.total.0,
                ..EMPTY.order
            },
            destination,
            parameters,
            ..EMPTY
        }
    }
}

impl From<Message> for Plain {
    ghost from_gives = { λ m p. p ≡ plain_of m };

    #[inline(always)]
    #[tactic(auto, unfolding(crate::specs::Messages::plain_of))]
    fn from(m: Message) -> Plain {
        match m {
            Message::ReliableWrapper(w) => wrapper_plain(message::RELIABLE_WRAPPER, w),
            Message::UnreliableWrapper(w) => wrapper_plain(message::UNRELIABLE_WRAPPER, w),
            Message::Join(j) => Plain::from(j),
            Message::JoinRefuse { member, reason } => Plain {
                vector: message::JOIN_REFUSE,
                reason,
                subject: Subject::from(member),
                ..EMPTY
            },
            Message::JoinAccept { member, reciprocal } => Plain {
                vector: message::JOIN_ACCEPT,
                reciprocal,
                subject: Subject::from(member),
                ..EMPTY
            },
            Message::Leaving { member, reason } => Plain {
                vector: message::LEAVING,
                reason,
                subject: Subject::from(member),
                ..EMPTY
            },
            Message::Ack(r) => Plain {
                vector: message::ACK,
                subject: Subject {
                    reliable: r.0,
                    ..EMPTY.subject
                },
                ..EMPTY
            },
            Message::Nak {
                member,
                first,
                last,
            } => Plain {
                vector: message::NAK,
                missed: Missed {
                    first: first.0,
                    last: last.0,
                },
                subject: Subject::from(member),
                ..EMPTY
            },
            Message::GetSessions(cid) => Plain {
                vector: message::GET_SESSIONS,
                subject: Subject {
                    cid,
                    ..EMPTY.subject
                },
                ..EMPTY
            },
        }
    }
}

// The address of a destination, with the parameters that follow it.
#[tactic(auto, unfolding(crate::specs::Messages::address_of))]
fn address_of(d: Destination, p: Parameters) -> Address
    ensures { result ≡ address_of d p }
{
    match d.kind {
        message::ADDRESS_NULL => Address::Null(p),
        message::ADDRESS_IPV4 => Address::Ipv4(
            Endpoint {
                port: d.port,
                host: d.host,
            },
            p,
        ),
        kind => Address::Other(kind),
    }
}

// The wrapper of these numbers.
fn wrapper_of(s: Subject, o: Order) -> Wrapper
    ensures { result ≡ wrapper_of s o }
{
    Wrapper {
        channel: s.channel,
        total: Total(o.total),
        reliable: Reliable(s.reliable),
        oldest: Reliable(o.oldest),
        first: o.first,
        last: o.last,
        threshold: o.threshold,
    }
}

impl From<Plain> for Join {
    ghost from_gives = { λ p j. j ≡ join_of p };

    #[inline(always)]
    fn from(p: Plain) -> Join {
        Join {
            cid: p.subject.cid,
            mid: p.subject.mid,
            channel: p.subject.channel,
            reciprocal: p.reciprocal,
            total: Total(p.order.total),
            reliable: Reliable(p.subject.reliable),
            address: address_of(p.destination, p.parameters),
        }
    }
}

// The message that a struct of numbers is, unless its vector is not one of the nine.
impl TryFrom<Plain> for Message {
    type Error = Refusal;

    ghost try_from_gives = { λ p m. m ≡ ok_or (typed_of p) NoForm };

    #[inline(always)]
    #[tactic(auto, unfolding(crate::specs::Messages::typed_of))]
    fn try_from(p: Plain) -> Result<Message, Refusal> {
        match p.vector {
            message::RELIABLE_WRAPPER => {
                Ok(Message::ReliableWrapper(wrapper_of(p.subject, p.order)))
            }
            message::UNRELIABLE_WRAPPER => {
                Ok(Message::UnreliableWrapper(wrapper_of(p.subject, p.order)))
            }
            message::JOIN => Ok(Message::Join(Join::from(p))),
            message::JOIN_REFUSE => Ok(Message::JoinRefuse {
                member: Membership::from(p.subject),
                reason: p.reason,
            }),
            message::JOIN_ACCEPT => Ok(Message::JoinAccept {
                member: Membership::from(p.subject),
                reciprocal: p.reciprocal,
            }),
            message::LEAVING => Ok(Message::Leaving {
                member: Membership::from(p.subject),
                reason: p.reason,
            }),
            message::ACK => Ok(Message::Ack(Reliable(p.subject.reliable))),
            message::NAK => Ok(Message::Nak {
                member: Membership::from(p.subject),
                first: Reliable(p.missed.first),
                last: Reliable(p.missed.last),
            }),
            message::GET_SESSIONS => Ok(Message::GetSessions(p.subject.cid)),
            _ => Err(Refusal::NoForm),
        }
    }
}
