// The verdict program's work: one line about a history (01, The judge's rules).
#![tactic(auto)]

pub mod lines;
pub mod verdict;

pub use lines::{write_jobs, write_no};
pub use verdict::{verdict_line, write_verdict};
