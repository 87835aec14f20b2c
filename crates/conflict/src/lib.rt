// The one account of conflicts, below desk and judge: kinds of action, lock modes, and what goes with what.
#![tactic(auto)]

pub mod action;
pub mod cells;
pub mod modes;
mod tables;
