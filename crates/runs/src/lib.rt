// Calls as data, and runs of them on a table: definitions and laws, nothing to run.
#![tactic(auto)]
