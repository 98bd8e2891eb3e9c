// Contexts in context save areas (002, 1.6, Figure 3 and chapter 4): what a save writes, what a return loads.

#![tactic(auto)]

pub mod context;
pub mod restore;
pub mod save;
