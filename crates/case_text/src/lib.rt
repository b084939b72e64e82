// Text as octets: the words of a line, what a word says, and octets in hex. A line need not be UTF-8, so that it is compared and shown as it stands.
#![tactic(auto)]

ghost use Rattle.std.specs.Prelude.{◌≤◌, length};
ghost use Rattle.std.specs.Iterator.{at_most};

use std::alloc::{AllocError, Global};
use std::{fmt, str};

// ---- words

// A carriage return is a blank, so that a file with either kind of line end is read.
pub fn is_blank(b: u8) -> bool {
    matches!(b, b' ' | b'\t' | b'\r')
}

fn trim_start(s: &[u8]) -> &[u8]
    ensures { length result.now ≤ length s.now }
{
    match s.iter().position(|b| !is_blank(*b)) {
        Some(i) => &s[i..],
        None => &[],
    }
}

// Without the blanks at both ends.
pub fn trim(s: &[u8]) -> &[u8] {
    match s.iter().rposition(|b| !is_blank(*b)) {
        Some(i) => trim_start(&s[..=i]),
        None => &[],
    }
}

// The words of a line, from the first on that is not yet taken.
#[derive(Drop)]
pub struct Words<'a>(&'a [u8]);

impl<'a> Words<'a> {
    pub fn of(line: &'a [u8]) -> Self {
        Words(trim_start(line))
    }

    // The line from the next word on.
    pub fn rest(&self) -> &'a [u8] {
        self.0
    }
}

impl<'a> Iterator for Words<'a> {
    type Item = &'a [u8];

    ghost remaining = { λ w. at_most (length w.0.now) };

    fn next(&mut self) -> Option<&'a [u8]> {
        let line = self.0;
        let end = line.iter().position(|b| is_blank(*b)).unwrap_or(line.len());
        let (word, rest) = line.split_at(end);
        self.0 = trim_start(rest);
        if word.is_empty() { None } else { Some(word) }
    }
}

// ---- comparing

fn is_hex(word: &[u8]) -> bool {
    word.iter().all(|b| b.is_ascii_hexdigit())
}

// Whether two words are the same, or are the same hex digits in either case.
fn is_same_word(a: &[u8], b: &[u8]) -> bool {
    a == b || is_hex(a) && a.eq_ignore_ascii_case(b)
}

// Whether two lines have the same words.
pub fn is_same_line(a: &[u8], b: &[u8]) -> bool {
    let mut others = Words::of(b);
    for word in Words::of(a) {
        match others.next() {
            Some(other) if is_same_word(word, other) => {}
            _ => return false,
        }
    }
    others.next().is_none()
}

// ---- what a word says

// A decimal number, with no sign.
pub fn decimal(word: &[u8]) -> Option<u32> {
    if !word.iter().all(|b| b.is_ascii_digit()) {
        return None;
    }
    str::from_utf8(word).ok()?.parse().ok()
}

fn hex_digit(b: u8) -> Option<u8> {
    u8::try_from(char::from(b).to_digit(16)?).ok()
}

// The octet that two hex digits say.
fn octet(high: u8, low: u8) -> Option<u8> {
    Some(hex_digit(high)? << 4 | hex_digit(low)?)
}

// The octets that a word says by pairs of hex digits, or none for `-`.
pub fn octets(alloc: Global, word: &[u8]) -> Result<Option<Vec<u8>>, AllocError> {
    let mut octets = Vec::with_capacity(alloc, word.len() / 2)?;
    if word == b"-".as_slice() {
        return Ok(Some(octets));
    }
    if word.is_empty() {
        return Ok(None);
    }
    let (pairs, last) = word.as_chunks::<2>();
    if !last.is_empty() {
        return Ok(None);
    }
    for pair in pairs {
        let Some(b) = octet(pair[0], pair[1]) else {
            return Ok(None);
        };
        octets.push(b)?;
    }
    Ok(Some(octets))
}

const DIGITS: [u8; 16] = *b"0123456789abcdef";

// Octets as pairs of hex digits, or `-` where there are none.
#[derive(Clone, Copy)]
pub struct Hex<'a>(pub &'a [u8]);

impl fmt::Display for Hex<'_> {
    fn fmt<W: fmt::Write>(&self, f: &mut fmt::Formatter<W>) -> fmt::Result {
        if self.0.is_empty() {
            return f.write_str("-");
        }
        // Part by part, which is much faster than octet by octet.
        for part in self.0.chunks(32) {
            let mut digits = [[0; 2]; 32];
            for (pair, b) in digits.iter_mut().zip(part) {
                *pair = [DIGITS[usize::from(b >> 4)], DIGITS[usize::from(b & 15)]];
            }
            let text = digits
                .as_flattened()
                .get(..2 * part.len())
                .unwrap_or_default();
            f.write_str(str::from_utf8(text).unwrap_or_default())?;
        }
        Ok(())
    }
}
