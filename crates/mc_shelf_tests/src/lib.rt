// What no clause says: the shelves in memory, called once each, with what they then hold.
#![tactic(auto)]

#[cfg(test)]
mod shelf_tests;
