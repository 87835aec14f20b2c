// The desk that runs (the lock manager): a step over the arrays in place, and the same by value.
#![tactic(auto)]

mod settling;
pub mod step;
pub mod wakes;
