// A lent table saved as one record and restored from one.
#![tactic(auto)]

mod rows; // rows.rt: the rows of a lent table
pub mod row; // row.rt: what a row adds to the record of its table
pub mod measure; // measure.rt: how long that record is
pub mod save; // save.rt: the whole-table save
pub mod restore; // restore.rt: the whole-table restore
