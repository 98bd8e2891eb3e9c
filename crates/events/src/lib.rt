// What a step comes to: an event, or a stop.

#![tactic(auto)]

pub mod event;
pub mod trap;
