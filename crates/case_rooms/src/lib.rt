// What a case sets up for its steps, the rooms that they may write, and what they gave.
#![tactic(auto)]

pub mod lent;
pub mod setting;

use std::fmt;

// The first octet of a piece that a step changed and that its answer does not say to be written.
#[derive(Clone, Copy)]
pub struct Fault {
    pub at: usize,
    pub piece: &'static str,
}

impl fmt::Display for Fault {
    fn fmt<W: fmt::Write>(&self, f: &mut fmt::Formatter<W>) -> fmt::Result {
        write!(
            f,
            "octet {} of {} was changed, and the answer does not say that it is written",
            self.at, self.piece
        )
    }
}

// What a step gave in lines, and whether it changed an octet beyond them.
#[derive(Drop)]
pub struct Ran {
    pub said: String,
    pub fault: Option<Fault>,
}
