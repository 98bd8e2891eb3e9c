// Context save areas in lent memory: links, addresses, and the area that a link names (002, 1.6 and chapter 4).

#![tactic(auto)]

pub mod area;
pub mod data;
pub mod link;
