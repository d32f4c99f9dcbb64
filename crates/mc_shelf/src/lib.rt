// The outside as one object: files that are loaded and saved, and what is printed; with two shelves in memory.
#![tactic(auto)]

pub mod ask;
mod contents;
pub mod files;
pub mod mem;
pub mod shelf;
pub mod sound;
