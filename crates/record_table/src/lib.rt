// The record of a whole table, layout 2: its reader, the test of both layouts, and the front of its writer.
#![tactic(auto)]

pub mod tags; // tags.rt: the tag of the number of axes
pub mod opening; // opening.rt: the five bytes that it opens with
pub mod reader; // reader.rt: the reader, which goes through a record and keeps nothing of it but two numbers
pub mod test; // test.rt: the test of both layouts
pub mod writer; // writer.rt: what a record has before its first entry
