//! How many bytes a line reads at most.

/// The greatest number of bytes of a sketch.
pub const MOST_BYTES: usize = 1_048_576;

/// The greatest number of bytes of an input of a line `check`: a sketch, and a certificate behind it.
pub const MOST_INPUT: usize = 67_108_864;
