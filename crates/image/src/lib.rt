// The image: its table of contents, its records, and the record at a PC.

#![tactic(auto)]

pub mod fetch;
pub mod lengths;
pub mod marks;
pub mod records;
pub mod table;
