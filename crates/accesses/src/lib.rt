// Loads and stores: register c at A[a] plus immediate.

#![tactic(auto)]

pub mod load;
pub mod reach;
pub mod store;
