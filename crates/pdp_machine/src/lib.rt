// The machine in time: events, grants, instructions and stops.
#![tactic(auto)]

pub mod due;
pub mod machine;
pub mod opening;
pub mod queue;
pub mod stop;
