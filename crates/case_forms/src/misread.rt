// Why a line cannot be read: what was expected, and where in the line.
use std::alloc::AllocError;
use std::fmt;

// What was expected.
#[derive(Clone, Copy)]
pub enum Wanted {
    // A number up to this one.
    Number(u32),
    Cid,
    Octets,
    EvenDigits,
    // So many octets, or fewer.
    AtMost(usize),
    Host,
    Phase,
    Piece,
    Message,
    Address,
    Line,
    Word(&'static str),
    End,
}

impl fmt::Display for Wanted {
    fn fmt<W: fmt::Write>(&self, f: &mut fmt::Formatter<W>) -> fmt::Result {
        match self {
            Wanted::Number(most) => write!(f, "a number from 0 to {most}"),
            Wanted::Cid => f.write_str("a CID: 16 octets in hex"),
            Wanted::Octets => {
                f.write_str("octets: pairs of hex digits, or - where there are none")
            }
            Wanted::EvenDigits => f.write_str("octets: an even number of hex digits"),
            Wanted::AtMost(most) => write!(f, "{most} octets at most"),
            Wanted::Host => f.write_str("an IPv4 address, as 192.0.2.1"),
            Wanted::Phase => f.write_str("the phase of the gap: quiet, standoff or waiting"),
            Wanted::Piece => f.write_str("a piece: table, held, deliver, reply or cells"),
            Wanted::Message => f.write_str(
                "a message: join, accept, refuse, leaving, nak, reliable, unreliable, get sessions or ack",
            ),
            Wanted::Address => f.write_str("an address: null, ipv4 or type"),
            Wanted::Line => f.write_str(
                "case, ours, record, free, place, lend, message, elapsed, leave, block, read, write, = or #",
            ),
            Wanted::Word(word) => write!(f, "the word `{word}`"),
            Wanted::End => f.write_str("the end of the line"),
        }
    }
}

// At which octet of the line something else was expected; or memory ran out.
#[derive(Clone, Copy)]
pub enum Misread {
    At(usize, Wanted),
    OutOfMemory(AllocError),
}

impl From<AllocError> for Misread {
    fn from(error: AllocError) -> Misread {
        Misread::OutOfMemory(error)
    }
}
