// Words of 32 bits: their signed values, and exact results written to a word (002, 8.1).

#![tactic(auto)]

pub mod result;
pub mod value;
