// What a record says of one axis: its configuration and position, their limits, and the fields that hold them.
#![tactic(auto)]

pub mod saved; // saved.rt: a configuration and a position
pub mod tags; // tags.rt: the tags of its fields
pub mod limits; // limits.rt: whether what a record says is within its limits
pub mod axis_fields; // axis_fields.rt: the fields of one axis, read at any place
