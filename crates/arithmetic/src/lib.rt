// Integer arithmetic on words: ADD to MUL, ABS and ABSDIF (002, 8.1.1.2 to 8.1.1.5).

#![tactic(auto)]

pub mod absolute;
pub mod products;
pub mod saturating;
pub mod sums;
