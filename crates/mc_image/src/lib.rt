// Absolute images: blocks of bytes in memory, and a start address, as values and as bytes.
#![tactic(auto)]

mod bytes;
pub mod fault;
pub mod image;
mod read;
mod write;

pub use read::read_image;
pub use write::write_image;
