// The lines of a case file: reading one into a value, and writing records and messages as lines.
#![tactic(auto)]

pub mod lines;
pub mod messages;
pub mod misread;
pub mod reading;
pub mod records;

// A value of the library as the words of a line.
#[derive(Clone, Copy)]
pub struct Spelled<T>(pub T);
