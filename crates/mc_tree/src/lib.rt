// What scanner and parser speak of: places, tokens, faults, and the tree of a program.
#![tactic(auto)]

pub mod expression;
pub mod fault;
pub mod place;
pub mod statement;
pub mod token;
pub mod tree;
