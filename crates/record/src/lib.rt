// The saved record, layout 1: its bytes, and its reader and test.
#![tactic(auto)]

pub mod tags; // tags.rt: the tags of its first field and its last
pub mod opening; // opening.rt: the five bytes that it opens with
pub mod reader; // reader.rt: read and test
