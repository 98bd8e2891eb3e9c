// The machine: a step, and a run of steps.

#![tactic(auto)]

pub mod answer;
mod guided;
mod instructions;
mod run_steps;
pub mod steps;
