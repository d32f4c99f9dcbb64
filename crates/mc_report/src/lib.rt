// The text that a run prints: a line for each entry of the journal, the count and the ending.
#![tactic(auto)]

pub mod digits;
pub mod ending;
pub mod lines;
pub mod pieces;
pub mod ring;
