// What setup, erase, preset, arm and acknowledge make of the row that they name, and answer.
#![tactic(auto)]

pub mod in_use; // in_use.rt: the axis that a call works on
pub mod setup; // setup.rt: setup and erase
pub mod change; // change.rt: preset, arm and acknowledge
