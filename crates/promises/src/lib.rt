// The promises: definitions and theorems about whole histories and whole tables. There is nothing to run.
#![tactic(auto)]
