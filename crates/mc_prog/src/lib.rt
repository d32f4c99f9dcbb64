// The resolved program, and the scopes of names.
#![tactic(auto)]

pub mod first;
pub mod program;
pub mod scoped;
pub mod standard;
pub mod typing;
pub mod values;
