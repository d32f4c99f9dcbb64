// From process code to the words of the machine.
#![tactic(auto)]

pub mod expand;
pub mod fault;
mod laid;
pub mod line;
mod parts;
mod pieces;
mod prologue;
mod put;
mod template;
