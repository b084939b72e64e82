// Reading a line word by word. A word that cannot be read ends the reading, with what was expected there.
ghost use Rattle.std.specs.Prelude.{◌≤◌, IfOk, vec_len};

use crate::misread::{Misread, Wanted};
use case_text::{Words, decimal, octets};
use counter::{Reliable, Total};
use message::{Cid, cid_at};
use std::alloc::Global;
use std::str;

// A line, and which of its words are still to be read.
#[derive(Drop)]
pub struct Reader<'a> {
    pub alloc: Global,
    line: &'a [u8],
    words: Words<'a>,
}

// What a word or several say, by their type.
pub trait Value: Sized {
    fn read(r: &mut Reader<'_>) -> Result<Self, Misread>;
}

impl<'a> Reader<'a> {
    pub fn of(alloc: Global, line: &'a [u8]) -> Self {
        Reader {
            alloc,
            line,
            words: Words::of(line),
        }
    }

    // Where the next word stands, or the line's end.
    pub fn at(&self) -> usize {
        self.line.len().saturating_sub(self.words.rest().len())
    }

    // The next word; past the last one it is empty, and says nothing.
    fn word(&mut self) -> &'a [u8] {
        self.words.next().unwrap_or(&[])
    }

    // The next word as a name. One that is not UTF-8 is none.
    pub fn name(&mut self) -> &'a str {
        str::from_utf8(self.word()).unwrap_or("")
    }

    // A value by the next words.
    pub fn value<V: Value>(&mut self) -> Result<V, Misread> {
        V::read(self)
    }

    // A word that stands in every such line.
    pub fn literal(&mut self, word: &'static str) -> Result<(), Misread> {
        let at = self.at();
        if self.name() == word {
            Ok(())
        } else {
            Err(Misread::At(at, Wanted::Word(word)))
        }
    }

    // A value behind its name.
    pub fn field<V: Value>(&mut self, name: &'static str) -> Result<V, Misread> {
        self.literal(name)?;
        self.value()
    }

    // A number up to the most.
    pub fn number(&mut self, most: u32) -> Result<u32, Misread>
        ensures { IfOk result (λ n. n ≤ most) }
    {
        let at = self.at();
        match decimal(self.word()) {
            Some(n) if n <= most => Ok(n),
            _ => Err(Misread::At(at, Wanted::Number(most))),
        }
    }

    // An index up to the last.
    pub fn index(&mut self, last: u32) -> Result<usize, Misread> {
        Ok(self.number(last)? as usize)
    }

    // Octets in hex. A word with an odd number of characters is told apart.
    pub fn octets(&mut self) -> Result<Vec<u8>, Misread> {
        let at = self.at();
        let word = self.word();
        match octets(self.alloc, word)? {
            Some(octets) => Ok(octets),
            None if word.len() % 2 == 1 => Err(Misread::At(at, Wanted::EvenDigits)),
            None => Err(Misread::At(at, Wanted::Octets)),
        }
    }

    // Octets in hex, up to the most.
    pub fn octets_up_to(&mut self, most: usize) -> Result<Vec<u8>, Misread>
        ensures { IfOk result (λ octets. vec_len octets ≤ most) }
    {
        let at = self.at();
        let octets = self.octets()?;
        if octets.len() <= most {
            Ok(octets)
        } else {
            Err(Misread::At(at, Wanted::AtMost(most)))
        }
    }

    // An IPv4 address as a number.
    pub fn host(&mut self) -> Result<u32, Misread> {
        let at = self.at();
        host(self.word()).ok_or(Misread::At(at, Wanted::Host))
    }

    // Nothing more stands in the line.
    pub fn end(&self) -> Result<(), Misread> {
        if self.words.rest().is_empty() {
            Ok(())
        } else {
            Err(Misread::At(self.at(), Wanted::End))
        }
    }
}

// An address A.B.C.D. Its octets may have leading zeros, which std's `Ipv4Addr` refuses.
fn host(word: &[u8]) -> Option<u32> {
    let mut parts = word.split(|b| *b == b'.');
    let mut octets = [0u8; 4];
    for octet in &mut octets {
        *octet = u8::try_from(decimal(parts.next()?)?).ok()?;
    }
    match parts.next() {
        Some(_) => None,
        None => Some(u32::from_be_bytes(octets)),
    }
}

// An impl for each width, since rt ci refuses an impl that a macro of the repository writes.
impl Value for u8 {
    fn read(r: &mut Reader<'_>) -> Result<u8, Misread> {
        Ok(r.number(u8::MAX.into())? as u8)
    }
}

impl Value for u16 {
    fn read(r: &mut Reader<'_>) -> Result<u16, Misread> {
        Ok(r.number(u16::MAX.into())? as u16)
    }
}

impl Value for u32 {
    fn read(r: &mut Reader<'_>) -> Result<u32, Misread> {
        r.number(u32::MAX)
    }
}

impl Value for bool {
    fn read(r: &mut Reader<'_>) -> Result<bool, Misread> {
        Ok(r.number(1)? == 1)
    }
}

impl Value for Total {
    fn read(r: &mut Reader<'_>) -> Result<Total, Misread> {
        Ok(Total(r.value()?))
    }
}

impl Value for Reliable {
    fn read(r: &mut Reader<'_>) -> Result<Reliable, Misread> {
        Ok(Reliable(r.value()?))
    }
}

impl Value for Cid {
    fn read(r: &mut Reader<'_>) -> Result<Cid, Misread> {
        let at = r.at();
        match octets(r.alloc, r.word())? {
            Some(octets) if octets.len() == 16 => Ok(cid_at(&octets, 0)),
            _ => Err(Misread::At(at, Wanted::Cid)),
        }
    }
}

impl Value for Vec<u8> {
    fn read(r: &mut Reader<'_>) -> Result<Vec<u8>, Misread> {
        r.octets()
    }
}
