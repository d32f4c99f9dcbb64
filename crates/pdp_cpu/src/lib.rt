// The processor: one instruction, or one grant.
#![tactic(auto)]

pub mod access;
pub mod compute;
pub mod control;
pub mod grant;
pub mod instruction;
pub mod locate;
pub mod operands;
pub mod registers;
pub mod signed;
