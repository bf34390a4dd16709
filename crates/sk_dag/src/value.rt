//! The values of nodes.

/// The value of a node in an environment.
#[derive(Clone, Copy, PartialEq, Eq, Debug)]
pub enum Value {
    /// A truth value.
    Bit(bool),
    /// A word: a signed number of the graph's width.
    Int(i64),
    /// A cost of 64 bits.
    Cost(u64),
}
