// What no clause says: that the definitions mean these commands, these texts and these reports.
#![tactic(auto)]

#[cfg(test)]
mod calls;
#[cfg(test)]
mod check_tests;
#[cfg(test)]
mod expected;
#[cfg(test)]
mod failing_tests;
#[cfg(test)]
mod fault_tests;
#[cfg(test)]
mod form_tests;
#[cfg(test)]
mod image_tests;
#[cfg(test)]
mod rows;
#[cfg(test)]
mod saving_tests;
#[cfg(test)]
mod script_tests;
#[cfg(test)]
mod settings_tests;
#[cfg(test)]
mod size_tests;
#[cfg(test)]
mod sound_tests;
#[cfg(test)]
mod sources;
#[cfg(test)]
mod word_tests;
