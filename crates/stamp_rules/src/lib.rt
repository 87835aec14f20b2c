// The timestamp desk as definitions, and its promises proved of it. There is no code here.
#![tactic(auto)]
