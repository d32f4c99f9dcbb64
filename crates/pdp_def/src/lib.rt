// The processor's state, and the definitions of what it does.
#![tactic(auto)]

pub mod operand;
pub mod operation;
pub mod outcome;
pub mod processor;
