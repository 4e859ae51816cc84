// The operations without a table that the locator's C host calls, on plain numbers and a byte slice.
#![tactic(auto)]

pub mod reckoning; // reckoning.rt: widening and speed by count
pub mod records; // records.rt: the record test
