// A port sample on one axis.
#![tactic(auto)]

pub mod step; // step.rt: a sample on an axis
