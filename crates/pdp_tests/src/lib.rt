// What no clause says: that the definitions of instructions, grants and runs are those of the handbooks.
#![tactic(auto)]

#[cfg(test)]
mod cpu_tests;
#[cfg(test)]
mod device_tests;
#[cfg(test)]
mod isa_tests;
#[cfg(test)]
mod machine_tests;
