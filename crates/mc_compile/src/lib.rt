// From a source to its image.
#![tactic(auto)]

pub mod accept;
pub mod compile;
mod emit;
mod front;
pub mod refusal;
