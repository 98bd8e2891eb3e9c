// Operations on the bits of words: logical, count leading, shift (002, 8.1.1.8 to 8.1.1.10).

#![tactic(auto)]

pub mod leading;
pub mod logical;
pub mod shift;
