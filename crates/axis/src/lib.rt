// One axis by value: its kind, its configuration, and the row of four words that holds it.
#![tactic(auto)]

pub mod limit; // limit.rt: how many axes there may be together
pub mod kind; // kind.rt: the kinds and their numbers
pub mod config; // config.rt: what an axis is set up as, and its limits
pub mod row; // row.rt: the four words, the axis that they hold, the erased axis and the one that is set up
