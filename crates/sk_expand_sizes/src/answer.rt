//! What is told of a program that is not too large.

/// How many steps the runs of all obligations may take, and how many records the runs of one may make at the most.
#[derive(Debug, Drop, Clone, Copy, PartialEq, Eq)]
pub struct Sizes {
    pub steps: u32,
    pub news: u32,
}
