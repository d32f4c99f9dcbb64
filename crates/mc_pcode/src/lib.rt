// Process code: the instructions that a process's text is lowered to, before the machine's words.
#![tactic(auto)]

pub mod instruction;
pub mod program;
