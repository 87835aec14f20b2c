// The desk's state (the lock table): arrays by place, in a struct with its methods; and the step over them as definitions, proved to be the paper's desk.
#![tactic(auto)]

pub mod board;
pub mod codes;
pub mod moves;
pub mod state;
