// Lent octets: big-endian numbers of 1, 2, 4 and 8 octets read and written in them, and copies between them.
#![tactic(auto)]

ghost use Rattle.std.specs.Prelude.{◌≡◌, ◌+◌, ◌-◌, ◌<◌, ◌≤◌, ℕ, length};
ghost use Rattle.octets.specs.Octets.{octets, part, number_at, splice};

// A number that a layout has as a field: the octets that it takes there, and reading and writing them. That the octets are there, `at` and the
// width within the slice, stands at each function that reads or writes: `at` is another place in each, and a type for a slice with a place in it
// would promise after each write that it is still the same slice (the new form is no plainer). Each width has its impl written out, since rt ci refuses
// an impl that a macro of the repository writes.
pub trait Field: Copy {
    ghost width: { ℕ };

    ghost value: { Self → ℕ };

    // The number at `at`.
    fn at(s: &[u8], at: usize) -> Self
        requires { at + width ≤ length s.now }
        ensures { value result ≡ number_at s.now at width };

    // Writes the number over the octets from `at` on, and answers the place behind it.
    fn put(self, s: &mut [u8], at: usize) -> usize
        requires { at + width ≤ length s.old }
        ensures { (s.new ≡ splice s.old at (octets width (value self))) × (result ≡ at + width) };
}

impl Field for u8 {
    ghost width = { 1 };

    ghost value = { λ x. x };

    #[tactic(auto, using(crate::proofs::Numbers::number_one))]
    fn at(s: &[u8], at: usize) -> u8 {
        s[at]
    }

    #[tactic(auto, using(crate::proofs::Writes::splice_one))]
    fn put(self, s: &mut [u8], at: usize) -> usize {
        s[at] = self;
        at + 1
    }
}

impl Field for u16 {
    ghost width = { 2 };

    ghost value = { λ x. x };

    #[tactic(auto, using(crate::proofs::Numbers::number_two))]
    fn at(s: &[u8], at: usize) -> u16 {
        u16::from_be_bytes(*s[at..at + 2].as_array().unwrap())
    }

    #[tactic(auto, using(crate::proofs::Writes::number_copied))]
    fn put(self, s: &mut [u8], at: usize) -> usize {
        s[at..at + 2].copy_from_slice(&self.to_be_bytes());
        at + 2
    }
}

impl Field for u32 {
    ghost width = { 4 };

    ghost value = { λ x. x };

    #[tactic(auto, using(crate::proofs::Numbers::number_four))]
    fn at(s: &[u8], at: usize) -> u32 {
        u32::from_be_bytes(*s[at..at + 4].as_array().unwrap())
    }

    #[tactic(auto, using(crate::proofs::Writes::number_copied))]
    fn put(self, s: &mut [u8], at: usize) -> usize {
        s[at..at + 4].copy_from_slice(&self.to_be_bytes());
        at + 4
    }
}

impl Field for u64 {
    ghost width = { 8 };

    ghost value = { λ x. x };

    #[tactic(auto, using(crate::proofs::Numbers::number_eight))]
    fn at(s: &[u8], at: usize) -> u64 {
        u64::from_be_bytes(*s[at..at + 8].as_array().unwrap())
    }

    #[tactic(auto, using(crate::proofs::Writes::number_copied))]
    fn put(self, s: &mut [u8], at: usize) -> usize {
        s[at..at + 8].copy_from_slice(&self.to_be_bytes());
        at + 8
    }
}

// Copies the N octets of `from` at i. With a length that is not known beforehand `copy_from_slice` is a call of `memmove`, and what C links calls no
// outside function (include/sdt.h); an array of N is a few loads and stores.
#[inline(always)]
fn copy_piece<const N: usize>(to: &mut [u8], at: usize, from: &[u8], i: usize)
    requires { (i + N ≤ length from.now) × (at + length from.now ≤ length to.old) }
    ensures { to.new ≡ splice to.old (at + i) (part from.now i N) }
{
    let piece: [u8; N] = *from[i..i + N].as_array().unwrap();
    to[at + i..at + i + N].copy_from_slice(&piece);
}

// Copies all of `from`, N octets to twice as many: the first N and the last N, which may overlap.
#[inline(always)]
fn copy_ends<const N: usize>(to: &mut [u8], at: usize, from: &[u8])
    requires { (N ≤ length from.now) × (length from.now ≤ N + N) × (at + length from.now ≤ length to.old) }
    ensures { to.new ≡ splice to.old at from.now }
{
    copy_piece::<N>(to, at, from, 0);
    copy_piece::<N>(to, at, from, from.len() - N);
}

// Copies runs of 32 octets, of each of which the compiler makes a few loads and stores, and then the last 32. It is a call of its own, so that writing
// a message with few contents or none does not bear the loop's registers.
#[inline(never)]
#[tactic(auto, using(crate::proofs::Writes::copy_turn))]
fn copy_long(to: &mut [u8], at: usize, from: &[u8])
    requires { (32 ≤ length from.now) × (at + length from.now ≤ length to.old) }
    ensures { to.new ≡ splice to.old at from.now }
{
    let runs = from.len() / 32 * 32;
    for j in 0..runs {
        to[at + j] = from[j];
    }
    copy_piece::<32>(to, at, from, from.len() - 32);
}

// Copies all of `from` over the octets of `to` from `at` on.
#[inline(always)]
#[tactic(auto, using(crate::proofs::Writes::nothing_copied))]
pub fn copy_into(to: &mut [u8], at: usize, from: &[u8])
    requires { at + length from.now ≤ length to.old }
    ensures { to.new ≡ splice to.old at from.now }
{
    match from.len() {
        32.. => copy_long(to, at, from),
        16.. => copy_ends::<16>(to, at, from),
        8.. => copy_ends::<8>(to, at, from),
        4.. => copy_ends::<4>(to, at, from),
        2.. => copy_ends::<2>(to, at, from),
        1 => copy_ends::<1>(to, at, from),
        0 => {}
    }
}
