// Widening the reading of a narrow counter, on plain numbers, with no table.
#![tactic(auto)]

pub mod widening; // widening.rt: a narrow counter's reading
