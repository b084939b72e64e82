// The two counters of a channel and the signed distance between two numbers of one counter. A total number and a reliable number are
// two types, so no comparison or sum takes one for the other.
#![tactic(auto)]

ghost use Rattle.std.specs.Prelude.{◌≡◌, ℕ};
ghost use Rattle.counter.specs.Distance.{ahead, distance};
ghost use Rattle.counter.specs.Steps.{next, previous, before};

// A total number: it counts every wrapper of a channel.
#[derive(Clone, Copy, Debug, PartialEq, Eq)]
pub struct Total(pub u32);

// A reliable number: it counts the reliable wrappers of a channel.
#[derive(Clone, Copy, Debug, PartialEq, Eq)]
pub struct Reliable(pub u32);

// What both counters are: a number of 32 bits that turns past zero, and its distance to another number of the same counter.
pub trait Counter: Copy {
    ghost number: { Self → ℕ };

    fn number(self) -> u32
        ensures { result ≡ number self };

    // How far `new` lies ahead of this number, turning past zero; from the half turn on it lies behind.
    final fn distance_to(self, new: Self) -> i32
        ensures { result ≡ distance (number self) (number new) }
    {
        signed_distance(self.number(), new.number())
    }
}

impl Counter for Total {
    ghost number = { λ x. x.0 };

    fn number(self) -> u32 {
        self.0
    }
}

impl Counter for Reliable {
    ghost number = { λ x. x.0 };

    fn number(self) -> u32 {
        self.0
    }
}

// How far to count up from `old` to `new`, turning past zero.
fn ahead_of(old: u32, new: u32) -> u32
    ensures { result ≡ ahead old new }
{
    new.wrapping_sub(old)
}

// The same read as a signed number: from the half turn on it lies behind.
fn signed_distance(old: u32, new: u32) -> i32
    ensures { result ≡ distance old new }
{
    ahead_of(old, new).cast_signed()
}

impl Reliable {
    // The number after this one.
    pub fn next(self) -> Reliable
        ensures { result.0 ≡ next self.0 }
    {
        Reliable(self.0.wrapping_add(1))
    }

    // The number before this one.
    pub fn previous(self) -> Reliable
        ensures { result.0 ≡ previous self.0 }
    {
        Reliable(self.0.wrapping_sub(1))
    }

    // This number less the threshold: with a last acknowledged number past it no ACK is due.
    pub fn before(self, threshold: u16) -> Reliable
        ensures { result.0 ≡ before threshold self.0 }
    {
        Reliable(self.0.wrapping_sub(u32::from(threshold)))
    }
}
