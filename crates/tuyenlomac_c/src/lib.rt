// What C links: the functions of `tuyenlomac`, exported under their names (02, No. 7). include/tuyenlomac.h declares them.
#![tactic(auto)]

pub mod histories;
pub mod lines;
pub mod locks;
pub mod stamps;
