// Sources with their first faults of words, grammar, scopes, types and rules, and the programs of those that have none, with
// runs of some of them.
#![tactic(auto)]

#[cfg(test)]
mod grammar_tests;
#[cfg(test)]
mod more_type_rows;
#[cfg(test)]
mod rows;
#[cfg(test)]
mod rule_rows;
#[cfg(test)]
mod rule_tests;
#[cfg(test)]
mod run_tests;
#[cfg(test)]
mod runs;
#[cfg(test)]
mod scope_tests;
#[cfg(test)]
mod stages;
#[cfg(test)]
mod type_rows;
#[cfg(test)]
mod type_tests;
