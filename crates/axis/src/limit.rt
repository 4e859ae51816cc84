// How many axes there may be together. Definitions and laws name it `most_axes`.
pub const AXES: usize = 16;
