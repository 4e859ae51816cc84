// Every function that include/ubrenchip.h declares, as C calls it: each passes its arguments on to the library that has it, and says of
// itself what that says.
#![tactic(auto)]

pub mod plain; // plain.rt: those that need no table
pub mod axes; // axes.rt: a port sample, and the calls that name an axis
pub mod whole; // whole.rt: the whole-table save and restore
