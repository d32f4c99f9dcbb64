// The instructions of the PDP-11 and their words.
#![tactic(auto)]

pub mod instr;
pub mod table;
