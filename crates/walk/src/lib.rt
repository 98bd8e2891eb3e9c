// The pool walk of document 01: its start, its lines and its blocks of output.

#![tactic(auto)]

mod alone;
pub mod blocks;
mod lines;
pub mod start;
