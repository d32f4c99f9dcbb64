// What a program means: the definitions of its runs, what a configuration is kept as, and its evaluation.
#![tactic(auto)]

mod access;
mod actions;
mod calling;
pub mod config;
pub mod configuration;
mod evaluation;
mod operations;
mod parts;
pub mod process;
mod statements;
pub mod steps;
pub mod store;
mod words;
