// What every layer shares: machine words, texts, bytes, and want of memory.
#![tactic(auto)]

pub mod bytes;
pub mod word;

/// A machine word, or a half of one put into a word.
pub type Word = u16;
