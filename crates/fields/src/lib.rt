// The fields of the core registers, each named once with its bits.

#![tactic(auto)]

pub mod depth;
pub mod icr;
pub mod link;
pub mod pcxi;
pub mod psw;
pub mod request;
pub mod syscon;
