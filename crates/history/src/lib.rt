// What a whole history of samples and calls tells of one row, from any four words: definitions and theorems, nothing to run.
#![tactic(auto)]
