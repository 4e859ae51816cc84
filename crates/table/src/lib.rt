// A lent table of axes, four words each: view, speed by period, a reading, save and restore.
#![tactic(auto)]

pub mod look; // look.rt: view, and speed by period
pub mod reading; // reading.rt: a reading of a narrow counter
pub mod saving; // saving.rt: save and restore
