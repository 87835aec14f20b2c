// The judge that runs: scans a history text line by line, then decides on what its lines say (01, The judge's rules).
#![tactic(auto)]

pub mod entry;
mod lines;
mod scan;

pub use entry::{judge, judge_at, judge_text};
