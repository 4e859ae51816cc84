// One axis in the record of a whole table, layout 2: its number and its fields, each value judged after its field.
#![tactic(auto)]

pub mod tags; // tags.rt: the tag of an axis's number
pub mod entry; // entry.rt: an axis's number, and what is said of it
pub mod judged; // judged.rt: the fields of one axis, read at any place and judged one by one
pub mod reader; // reader.rt: an entry, read at any place
pub mod writer; // writer.rt: an entry, written at any place
