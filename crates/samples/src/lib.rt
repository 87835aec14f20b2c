// The paper's starred samples, as one listed set with one claim. There is no code here.
#![tactic(auto)]
