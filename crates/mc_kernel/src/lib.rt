// The process kernel: words that are the same for every program and all settings.
#![tactic(auto)]

pub mod layout;
pub mod listing;
pub mod memory;
mod words;
