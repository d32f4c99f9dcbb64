// Straight-line device modules: the form of the sources that are compiled today, found in the tree.
#![tactic(auto)]

mod alone;
pub mod form;
mod lists;
mod names;
mod parts;
pub mod read;
