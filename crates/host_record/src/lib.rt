// The whole-table save and restore, and the test of both layouts, for C: each passes its arguments on to the table's or the record's own
// call and shows the answer as a C struct.
#![tactic(auto)]

pub mod whole; // whole.rt: the whole-table save and restore
pub mod records; // records.rt: the test of both layouts
