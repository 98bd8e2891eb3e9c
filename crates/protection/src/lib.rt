// Memory protection (002, 3.8 and 7.3): the ranges of four sets, and what they permit.

#![tactic(auto)]

pub mod access;
pub mod range;
