// Entries: an interrupt, a trap, and the FCD trap after a save that took the area which LCX names.

#![tactic(auto)]

pub mod entry;
pub mod setting;
