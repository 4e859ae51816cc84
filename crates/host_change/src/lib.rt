// Setup, erase, preset, arm and acknowledge, for C: each passes its arguments on to the table's own call and shows the
// answer as a C struct.
#![tactic(auto)]

pub mod setup; // setup.rt: setup and erase
pub mod change; // change.rt: preset, arm and acknowledge
