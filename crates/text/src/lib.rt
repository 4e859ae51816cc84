// Text in a lent buffer, and the three lines of a report.
#![tactic(auto)]

pub mod put; // put.rt: a line of a label and a number, and how far a number is from 0
pub mod report; // report.rt: what a trace has counted, and its three lines
