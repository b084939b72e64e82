// The refusals of every call, by 01's numbers ("Refusal numbers").
#![tactic(auto)]

ghost use Rattle.std.specs.Prelude.{◌≡◌};
ghost use Rattle.refusal.specs.Numbers.{number_of};

// Why a call is refused. A refused call changes nothing.
#[derive(Clone, Copy, Debug, PartialEq, Eq)]
pub enum Refusal {
    // 1: a lent piece has another size than it must have, a CID is not 16 octets, a room is shorter than its message, or a block is too long.
    WrongSize,
    // 2: the table is not well formed.
    WrongTable,
    // 3: more time passes than a call takes.
    TooMuchTime,
    // 4: the vector is none of the nine messages, or the data has no length or address form of the table.
    NoForm,
    // 5: no Join or wrapper, or a Join that names another component.
    NotForUs,
    // 6: no record has this owner and channel.
    NoRecord,
    // 7: a wrapper's contents are longer than a place.
    ContentsOver,
    // 8: the wrapper is old.
    Old,
    // 9: the wrapper is inconsistent.
    Inconsistent,
    // 10: the reason is none of a Leaving.
    WrongReason,
    // 11: the block is malformed; its first malformed PDU begins at this octet.
    Malformed(usize),
}

// 01's number.
impl From<Refusal> for u8 {
    ghost from_gives = { λ refusal n. n ≡ number_of refusal };

    fn from(refusal: Refusal) -> u8 {
        match refusal {
            Refusal::WrongSize => 1,
            Refusal::WrongTable => 2,
            Refusal::TooMuchTime => 3,
            Refusal::NoForm => 4,
            Refusal::NotForUs => 5,
            Refusal::NoRecord => 6,
            Refusal::ContentsOver => 7,
            Refusal::Old => 8,
            Refusal::Inconsistent => 9,
            Refusal::WrongReason => 10,
            Refusal::Malformed(_) => 11,
        }
    }
}
