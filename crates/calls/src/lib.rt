// The instructions on contexts: calls, returns, saves and restores of the lower context, SYSCALL.

#![tactic(auto)]

pub mod instructions;
pub mod returns;
pub mod saves;
