// A lent table of axes, four words each: setup, erase, preset, arm and acknowledge, and what any call makes of the named row.
#![tactic(auto)]

pub mod commit; // commit.rt: what a call makes of the named row, written back or not, and a change of the named row
pub mod setup; // setup.rt: setup and erase
pub mod change; // change.rt: preset, arm and acknowledge
