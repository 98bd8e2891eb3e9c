// The system instructions.

#![tactic(auto)]

pub mod core_registers;
pub mod instructions;
