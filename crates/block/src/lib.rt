// Reading a block of base messages: where the vector and the data of each message lie, or where the first malformed PDU begins.
#![tactic(auto)]

ghost use Rattle.std.specs.Prelude.{◌≡◌, Bool, cond, ◌&&◌, ◌+◌, ◌^◌, ◌≤◌, ◌<◌, not, length, get_or, IfSome};
ghost use Rattle.block.specs.Pdu.{has_l, has_v, has_h, has_d, head_size, fields, size_at, lacks_flag, left_over, found_at, pdu_at};
ghost use Rattle.block.specs.Block.{scan_of};
ghost use Rattle.block.specs.Cursor.{astray};
ghost use Rattle.block.specs.Allowed.{ReadBlockAllows, OpenBlockAllows, NextMessageAllows};

use refusal::Refusal;

// A message of a block: the place of its vector, and the place and length of its data. Numbers and no slices, since 01 asks for the place within
// the block, and sdt_read_block and sdt_next_message hand it to C.
#[repr(C)]
#[derive(Clone, Copy)]
pub struct Found {
    pub vector: usize,
    pub place: usize,
    pub len: usize,
}

// A PDU that is not malformed: its message, and the place behind it, where the next PDU begins.
#[derive(Clone, Copy)]
pub struct Whole {
    pub found: Found,
    pub next: usize,
}

// Where reading goes on: the place of the next PDU, and the message before it, from which that PDU may take its vector or its data. `before` is no
// Option, since C holds this struct (sdt_open_block, sdt_next_message): before the first PDU it is NOTHING.
#[repr(C)]
#[derive(Clone, Copy)]
pub struct Cursor {
    pub next: usize,
    pub before: Found,
}

// What opening a block gives: how many messages it has, and the cursor before them.
#[derive(Clone, Copy)]
pub struct Opened {
    pub count: usize,
    pub cursor: Cursor,
}

// What reading on gives: the next message, and the cursor behind it.
#[derive(Clone, Copy)]
pub struct Following {
    pub found: Found,
    pub cursor: Cursor,
}

// The cursor cannot be one of this block's.
#[derive(Clone, Copy, Debug, PartialEq, Eq)]
pub struct Astray;

// One pass over a block: how many messages it has, and the one that was asked for, if it is among them.
#[derive(Clone, Copy)]
pub struct Scanned {
    pub count: usize,
    pub found: Option<Found>,
}

// The first octet of a PDU: its four flags, and the upper bits of its length.
#[derive(Clone, Copy)]
struct Flags(u8);

const MOST_BLOCK: usize = 65535;

// No message: what stands before the first PDU, which takes nothing from it.
pub const NOTHING: Found = Found {
    vector: 0,
    place: 0,
    len: 0,
};

// The cursor before the first message of a block.
pub const START: Cursor = Cursor {
    next: 0,
    before: NOTHING,
};

// The flags are taken by / and %: with & the proofs of `has_v` and `lacks_flag` did not close.
impl Flags {
    fn has_l(self) -> bool
        ensures { result ≡ has_l self.0 }
    {
        self.0 / 128 % 2 == 1
    }

    fn has_v(self) -> bool
        ensures { result ≡ has_v self.0 }
    {
        self.0 / 64 % 2 == 1
    }

    fn has_d(self) -> bool
        ensures { result ≡ has_d self.0 }
    {
        self.0 / 16 % 2 == 1
    }

    // A first PDU without V, H or D.
    #[tactic(auto, using(crate::proofs::OnePdu::flags), unfolding(crate::specs::Pdu::lacks_flag))]
    fn lacks_flag(self, at: usize) -> bool
        ensures { result ≡ lacks_flag at self.0 }
    {
        at == 0 && self.0 / 16 % 8 != 7
    }

    // The octets of flags and length.
    #[tactic(auto, unfolding(crate::specs::Pdu::head_size))]
    fn head_size(self) -> usize
        ensures { (result ≡ head_size self.0) × (2 ≤ result) × (result ≤ 3) }
    {
        if self.has_l() { 3 } else { 2 }
    }

    // The octets of a PDU's own fields.
    #[tactic(auto, unfolding(crate::specs::Pdu::fields))]
    fn fields(self) -> usize
        ensures { (result ≡ fields self.0) × (head_size self.0 ≤ result) × (result ≤ 4) }
    {
        if self.has_v() {
            self.head_size() + 1
        } else {
            self.head_size()
        }
    }

    // Octets left over with D clear, in a PDU of this length.
    #[tactic(auto, unfolding(crate::specs::Pdu::left_over))]
    fn leaves_over(self, size: usize) -> bool
        ensures { result ≡ left_over self.0 (fields self.0) size }
    {
        !self.has_d() && self.fields() < size
    }

    // The message of the PDU of this length at `at`: what it does not carry itself is that of the one before.
    #[tactic(auto, unfolding(crate::specs::Pdu::found_at, crate::specs::Pdu::fields))]
    fn message(self, at: usize, size: usize, before: Found) -> Found
        requires fields_le_size { (fields self.0 ≤ size) × (at + size < 2 ^ 64) }
        ensures { result ≡ found_at at self.0 size before }
    {
        let body = if self.has_d() {
            Found {
                place: at + self.fields(),
                len: size - self.fields(),
                ..before
            }
        } else {
            before
        };
        if self.has_v() {
            Found {
                vector: at + self.head_size(),
                ..body
            }
        } else {
            body
        }
    }
}

// The length of the PDU at `at`, whose length octets are there.
#[tactic(auto, using(crate::proofs::OnePdu::sizes))]
fn size_at(block: &[u8], at: usize) -> usize
    requires { at + head_size (get_or block.now at 0) ≤ length block.now }
    ensures { (result ≡ size_at block.now at) × (result < 1048576) }
{
    let flags = Flags(block[at]);
    let short = usize::from(flags.0) % 16 * 256 + usize::from(block[at + 1]);
    if flags.has_l() {
        short * 256 + usize::from(block[at + 2])
    } else {
        short
    }
}

// The PDU that begins at `at`, unless it is malformed.
#[tactic(auto, using(crate::proofs::OnePdu::pdus, crate::proofs::OnePdu::whole))]
fn pdu_at(block: &[u8], at: usize, before: Found) -> Option<Whole>
    requires { at < length block.now }
    ensures pdu { result ≡ pdu_at block.now at before }
    ensures within { IfSome result (λ whole. (at < whole.next) × (whole.next ≤ length block.now)) }
{
    let flags = Flags(block[at]);
    let left = block.len() - at;
    if flags.lacks_flag(at) || left < flags.head_size() {
        return None;
    }
    let size = size_at(block, at);
    if size < flags.fields() || left < size || flags.leaves_over(size) {
        return None;
    }
    Some(Whole {
        found: flags.message(at, size, before),
        next: at + size,
    })
}

// Passes over the whole block, keeping the message at `position`.
#[tactic(auto, using(crate::proofs::Pass::turns))]
fn scan(block: &[u8], position: usize) -> Result<Scanned, Refusal>
    ensures { result ≡ scan_of block.now position }
{
    if MOST_BLOCK < block.len() {
        return Err(Refusal::WrongSize);
    }
    let mut at = 0;
    let mut count = 0;
    let mut before = NOTHING;
    let mut found = None;
    // No range is counted here: `at` moves on by each PDU's own length (the new form is no plainer).
    while at < block.len() {
        let Some(whole) = pdu_at(block, at, before) else {
            return Err(Refusal::Malformed(at));
        };
        if count == position {
            found = Some(whole.found);
        }
        before = whole.found;
        at = whole.next;
        count += 1;
    }
    Ok(Scanned { count, found })
}

// The message of a block at `position`, counted from 0, if it has one there.
#[tactic(auto, unfolding(crate::specs::Block::read_block, crate::specs::Block::asked, crate::specs::Block::scan_of))]
pub fn read_block(block: &[u8], position: u32) -> Result<Option<Found>, Refusal>
    ensures { ReadBlockAllows block.now position result }
{
    Ok(scan(block, position as usize)?.found)
}

// How many messages a block has, and the cursor before the first.
#[tactic(auto, unfolding(crate::specs::Cursor::open_block, crate::specs::Cursor::opened_of, crate::specs::Block::scan_of))]
pub fn open_block(block: &[u8]) -> Result<Opened, Refusal>
    ensures { OpenBlockAllows block.now result }
{
    let scanned = scan(block, 0)?;
    Ok(Opened {
        count: scanned.count,
        cursor: START,
    })
}

impl Cursor {
    // Whether it cannot be one of a block of `size` octets.
    #[tactic(auto, unfolding(crate::specs::Cursor::astray))]
    fn is_astray(self, size: usize) -> bool
        ensures { result ≡ astray size self }
    {
        MOST_BLOCK < size
            || size < self.next
            || self.next != 0
                && (self.next <= self.before.vector
                    || self.next < self.before.place
                    || self.next - self.before.place < self.before.len)
    }
}

// The message behind the cursor, if the block does not end there. Any cursor is taken; what it answers lies inside the block.
#[tactic(auto, using(crate::proofs::Inside::begins), unfolding(crate::specs::Cursor::next_message))]
pub fn next_message(block: &[u8], cursor: Cursor) -> Result<Option<Following>, Astray>
    ensures { NextMessageAllows block.now cursor result }
{
    if cursor.is_astray(block.len()) {
        return Err(Astray);
    }
    if cursor.next == block.len() {
        return Ok(None);
    }
    let whole = pdu_at(block, cursor.next, cursor.before).ok_or(Astray)?;
    Ok(Some(Following {
        found: whole.found,
        cursor: Cursor {
            next: whole.next,
            before: whole.found,
        },
    }))
}
