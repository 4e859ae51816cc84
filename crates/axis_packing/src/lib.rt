// Between the four words of a row and the axis that they hold.
#![tactic(auto)]

pub mod unpack; // unpack.rt: from a row to its axis
pub mod pack; // pack.rt: from an axis to its row
