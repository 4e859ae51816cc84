// What the calls answer to C, as C structs; a port sample's answer stands with its export.
#![tactic(auto)]

pub mod answer; // answer.rt: the answers of most calls
pub mod speeds; // speeds.rt: a speed's
pub mod view; // view.rt: a view's
