// What is turned down because of the input, rules 1 to 6 and 13, and what is accepted.

#![tactic(auto)]

pub mod checks;
pub mod verdict;
