// Whole tables, saved and restored, and a restore as one axis has it: definitions and laws, nothing to run.
#![tactic(auto)]
