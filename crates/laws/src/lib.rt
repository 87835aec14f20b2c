// General laws that no paper names: choosing by a test, lists of numbers, and what "no second result" means. There is no code here.
#![tactic(auto)]
