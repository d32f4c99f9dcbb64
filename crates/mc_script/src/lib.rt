// Scripts: what happens to the machine from outside, and when, as values and as texts.
#![tactic(auto)]

mod draft;
pub mod fault;
mod fields;
mod form;
mod line;
mod number;
mod read;
pub mod script;
mod setting;

pub use read::read_script;
