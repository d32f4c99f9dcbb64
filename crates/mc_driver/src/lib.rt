// The top call: a command's words, the outside, and what is answered.
#![tactic(auto)]

mod check;
mod command;
mod compile;
mod drive;
mod ending;
mod files;
mod generate;
mod refusal;
mod run;
mod status;

pub use command::modula;
