// Numbers in bytes and tagged fields, as records have them.
#![tactic(auto)]

pub mod bytes; // bytes.rt: bytes, and numbers in bytes, high byte first
pub mod twos; // twos.rt: a signed number and its 64 bits
pub mod field; // field.rt: one field with its head and its value
