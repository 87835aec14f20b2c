// What a step of the desk has to find out before anything changes: its plan, and the next grant of rule 4.
#![tactic(auto)]

pub mod grants;
mod places;
pub mod plan;
