// The clerk at work: takes chunks of request lines, gives records and at the end the chains, for any lines and any size of buffers.
#![tactic(auto)]

pub mod chains;
mod heading;
mod records;
pub mod work;
