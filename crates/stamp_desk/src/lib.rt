// The timestamp desk that runs: its step in place and by value, proved to be the arrays' step (02, No. 6).
#![tactic(auto)]

pub mod plan;
pub mod step;
