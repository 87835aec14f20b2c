// What a program in C or Rust links: either desk, lent to each call, the judge, and lines in and out, all in numbers (02, No. 7). include/tuyenlomac.h has the same functions for callers.
#![tactic(auto)]

pub mod answers;
pub mod histories;
pub mod lines;
pub mod locks;
pub mod stamps;
