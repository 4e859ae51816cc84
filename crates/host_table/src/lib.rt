// View, speed by period, a reading, save and restore, for C: each passes its arguments on to the table's own call and
// shows the answer as C structs.
#![tactic(auto)]

pub mod look; // look.rt: view, and speed by period
pub mod reading; // reading.rt: a reading of a narrow counter
pub mod saving; // saving.rt: save and restore
