// A message as the words of a line.
use crate::Spelled;
use crate::misread::{Misread, Wanted};
use crate::reading::{Reader, Value};
use case_text::Hex;
use message::{Address, Endpoint, Join, Membership, Message, Parameters, Wrapper};
use std::alloc::AllocError;
use std::fmt;
use std::net::Ipv4Addr;

// ---- reading

impl Value for Wrapper {
    fn read(r: &mut Reader<'_>) -> Result<Wrapper, Misread> {
        Ok(Wrapper {
            channel: r.field("channel")?,
            total: r.field("total")?,
            reliable: r.field("reliable")?,
            oldest: r.field("oldest")?,
            first: r.field("first")?,
            last: r.field("last")?,
            threshold: r.field("threshold")?,
        })
    }
}

impl Value for Membership {
    fn read(r: &mut Reader<'_>) -> Result<Membership, Misread> {
        Ok(Membership {
            leader: r.field("cid")?,
            channel: r.field("channel")?,
            mid: r.field("mid")?,
            reliable: r.field("reliable")?,
        })
    }
}

impl Value for Parameters {
    fn read(r: &mut Reader<'_>) -> Result<Parameters, Misread> {
        Ok(Parameters {
            expiry: r.field("expiry")?,
            flags: r.field("flags")?,
            holdoff: r.field("holdoff")?,
            modulus: r.field("modulus")?,
            maxwait: r.field("maxwait")?,
            adhoc: r.field("adhoc")?,
        })
    }
}

impl Value for Endpoint {
    fn read(r: &mut Reader<'_>) -> Result<Endpoint, Misread> {
        Ok(Endpoint {
            port: r.value()?,
            host: r.host()?,
        })
    }
}

impl Value for Address {
    fn read(r: &mut Reader<'_>) -> Result<Address, Misread> {
        let at = r.at();
        match r.name() {
            "null" => Ok(Address::Null(r.value()?)),
            "ipv4" => Ok(Address::Ipv4(r.value()?, r.value()?)),
            "type" => Ok(Address::Other(r.value()?)),
            _ => Err(Misread::At(at, Wanted::Address)),
        }
    }
}

impl Value for Join {
    fn read(r: &mut Reader<'_>) -> Result<Join, Misread> {
        Ok(Join {
            cid: r.field("cid")?,
            mid: r.field("mid")?,
            channel: r.field("channel")?,
            reciprocal: r.field("reciprocal")?,
            total: r.field("total")?,
            reliable: r.field("reliable")?,
            address: r.field("address")?,
        })
    }
}

// A message without the contents that a wrapper has at its end.
impl Value for Message {
    fn read(r: &mut Reader<'_>) -> Result<Message, Misread> {
        let at = r.at();
        match r.name() {
            "join" => Ok(Message::Join(r.value()?)),
            "accept" => Ok(Message::JoinAccept {
                member: r.value()?,
                reciprocal: r.field("reciprocal")?,
            }),
            "refuse" => Ok(Message::JoinRefuse {
                member: r.value()?,
                reason: r.field("reason")?,
            }),
            "leaving" => Ok(Message::Leaving {
                member: r.value()?,
                reason: r.field("reason")?,
            }),
            "nak" => Ok(Message::Nak {
                member: r.value()?,
                first: r.field("first")?,
                last: r.field("last")?,
            }),
            "reliable" => Ok(Message::ReliableWrapper(r.value()?)),
            "unreliable" => Ok(Message::UnreliableWrapper(r.value()?)),
            "get" => {
                r.literal("sessions")?;
                Ok(Message::GetSessions(r.field("cid")?))
            }
            "ack" => Ok(Message::Ack(r.field("reliable")?)),
            _ => Err(Misread::At(at, Wanted::Message)),
        }
    }
}

// ---- writing

impl fmt::Display for Spelled<Wrapper> {
    fn fmt<W: fmt::Write>(&self, f: &mut fmt::Formatter<W>) -> fmt::Result {
        let w = self.0;
        write!(
            f,
            "channel {} total {} reliable {}",
            w.channel, w.total.0, w.reliable.0
        )?;
        write!(
            f,
            " oldest {} first {} last {} threshold {}",
            w.oldest.0, w.first, w.last, w.threshold
        )
    }
}

impl fmt::Display for Spelled<Membership> {
    fn fmt<W: fmt::Write>(&self, f: &mut fmt::Formatter<W>) -> fmt::Result {
        let m = self.0;
        write!(
            f,
            "cid {} channel {} mid {} reliable {}",
            Spelled(m.leader),
            m.channel,
            m.mid,
            m.reliable.0
        )
    }
}

impl fmt::Display for Spelled<Parameters> {
    fn fmt<W: fmt::Write>(&self, f: &mut fmt::Formatter<W>) -> fmt::Result {
        let p = self.0;
        write!(
            f,
            "expiry {} flags {} holdoff {}",
            p.expiry, p.flags, p.holdoff
        )?;
        write!(
            f,
            " modulus {} maxwait {} adhoc {}",
            p.modulus, p.maxwait, p.adhoc
        )
    }
}

impl fmt::Display for Spelled<Address> {
    fn fmt<W: fmt::Write>(&self, f: &mut fmt::Formatter<W>) -> fmt::Result {
        match self.0 {
            Address::Null(p) => write!(f, "null {}", Spelled(p)),
            Address::Ipv4(e, p) => write!(
                f,
                "ipv4 {} {} {}",
                e.port,
                Ipv4Addr::from_bits(e.host),
                Spelled(p)
            ),
            Address::Other(kind) => write!(f, "type {kind}"),
        }
    }
}

impl fmt::Display for Spelled<Join> {
    fn fmt<W: fmt::Write>(&self, f: &mut fmt::Formatter<W>) -> fmt::Result {
        let j = self.0;
        write!(
            f,
            "cid {} mid {} channel {} reciprocal {}",
            Spelled(j.cid),
            j.mid,
            j.channel,
            j.reciprocal
        )?;
        write!(
            f,
            " total {} reliable {} address {}",
            j.total.0,
            j.reliable.0,
            Spelled(j.address)
        )
    }
}

// A message without its contents, as it is read.
impl fmt::Display for Spelled<Message> {
    fn fmt<W: fmt::Write>(&self, f: &mut fmt::Formatter<W>) -> fmt::Result {
        match self.0 {
            Message::Join(j) => write!(f, "join {}", Spelled(j)),
            Message::JoinAccept { member, reciprocal } => {
                write!(f, "accept {} reciprocal {reciprocal}", Spelled(member))
            }
            Message::JoinRefuse { member, reason } => {
                write!(f, "refuse {} reason {reason}", Spelled(member))
            }
            Message::Leaving { member, reason } => {
                write!(f, "leaving {} reason {reason}", Spelled(member))
            }
            Message::Nak {
                member,
                first,
                last,
            } => write!(
                f,
                "nak {} first {} last {}",
                Spelled(member),
                first.0,
                last.0
            ),
            Message::ReliableWrapper(w) => write!(f, "reliable {}", Spelled(w)),
            Message::UnreliableWrapper(w) => write!(f, "unreliable {}", Spelled(w)),
            Message::GetSessions(c) => write!(f, "get sessions cid {}", Spelled(c)),
            Message::Ack(r) => write!(f, "ack reliable {}", r.0),
        }
    }
}

// A line that gives a message, and for a wrapper its contents.
pub fn write_message(said: &mut String, m: Message, contents: &[u8]) -> Result<(), AllocError> {
    write!(said, "= {}", Spelled(m))?;
    if let Message::ReliableWrapper(_) | Message::UnreliableWrapper(_) = m {
        write!(said, " contents {}", Hex(contents))?;
    }
    said.push_str("\n")
}
