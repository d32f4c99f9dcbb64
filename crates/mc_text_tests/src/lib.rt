// What no clause says: that the definitions mean these sources, images, scripts, words and reports.
#![tactic(auto)]

#[cfg(test)]
mod image_tests;
#[cfg(test)]
mod report_tests;
#[cfg(test)]
mod scan_tests;
#[cfg(test)]
mod script_tests;
#[cfg(test)]
mod word_tests;
