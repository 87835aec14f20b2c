// The paper's desk as definitions, and the demands proved of it.
#![tactic(auto)]
