// Comparisons of words (002, 8.2), and the minimum and maximum that go by them (002, 8.1.1.6).

#![tactic(auto)]

pub mod choices;
pub mod tests;
