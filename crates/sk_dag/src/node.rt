//! The nodes of a graph, and the numbers by which they are named.

/// The number of a node whose value is a truth value.
#[derive(Clone, Copy, PartialEq, Eq, Hash, Debug)]
pub struct BoolId {
    pub index: usize,
}

/// The number of a node whose value is a word.
#[derive(Clone, Copy, PartialEq, Eq, Hash, Debug)]
pub struct WordId {
    pub index: usize,
}

/// The number of a node whose value is a cost.
#[derive(Clone, Copy, PartialEq, Eq, Hash, Debug)]
pub struct CostId {
    pub index: usize,
}

/// One node of a graph: an operator over nodes with smaller numbers. Each variant holds the
/// arguments of the maker that it is named after, in their order.
#[derive(Clone, Copy, PartialEq, Eq, Hash, Debug)]
pub enum Node {
    Flag(bool),
    Word(i64),
    HoleBit(u32, u32),
    HoleWord(u32),
    InputBit(u32),
    InputWord(u32),
    Not(BoolId),
    And(BoolId, BoolId),
    Or(BoolId, BoolId),
    Xor(BoolId, BoolId),
    BoolMux(BoolId, BoolId, BoolId),
    Mux(BoolId, WordId, WordId),
    Add(WordId, WordId),
    Sub(WordId, WordId),
    Mul(WordId, WordId),
    Div(WordId, WordId),
    Rem(WordId, WordId),
    Lt(WordId, WordId),
    Eq(WordId, WordId),
    CostZero,
    CostAdd(CostId, BoolId, WordId),
    CostLe(CostId, u64),
}
