// Which job is holding a pen: the chain of a waiting job, read off the desk's arrays (02, No. 3).
#![tactic(auto)]

pub mod chain;
