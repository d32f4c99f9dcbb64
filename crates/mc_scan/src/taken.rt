// What is taken from the front of the bytes that are left.

use mc_tree::token::Kind;

/// A token at the front of bytes, and how many bytes spell it.
#[derive(Drop)]
pub struct Taken {
    pub kind: Kind,
    pub length: usize,
}
