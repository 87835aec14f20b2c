// The timestamp desk's state: arrays of numbers, in a struct with its methods; and the step over them as definitions, proved to be the request's desk (02, No. 6).
#![tactic(auto)]

pub mod moves;
pub mod state;
