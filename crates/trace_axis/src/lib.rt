// One axis traced byte by byte, and the report of what was counted.
#![tactic(auto)]

pub mod trace; // trace.rt: the axis, the bytes it has seen, and what it reports
