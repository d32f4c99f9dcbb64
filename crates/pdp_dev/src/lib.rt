// The devices on the bus: their registers, events and interrupt requests.
#![tactic(auto)]

pub mod devices;
pub mod entry;
pub mod register;
