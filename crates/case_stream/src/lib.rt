// What comes in and what goes out: the lines of the input as they come, and the report of each case, which holds what a step gave against the lines
// under it.
#![tactic(auto)]

pub mod judging;
pub mod output;
pub mod report;
pub mod source;
