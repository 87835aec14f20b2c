// A desk that is kept in one place and lent to each call, to be changed there: thin entries over the step by value (02, No. 7).
#![tactic(auto)]

pub mod locks;
pub mod night;
pub mod stamps;
