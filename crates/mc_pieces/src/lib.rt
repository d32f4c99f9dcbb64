// A tree as a flat list of pieces, each behind its parts: its declarations, and its texts that run.
#![tactic(auto)]

mod declaration;
mod expression;
mod named;
pub mod piece;
mod statement;
pub mod text_pieces;
pub mod tree_pieces;
mod walk;
