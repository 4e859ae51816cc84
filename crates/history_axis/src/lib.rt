// What a whole history of samples and changes tells of one axis: definitions and theorems, nothing to run.
#![tactic(auto)]
