/// The bounds of a synthesis, which are part of what a run means.
#[derive(Debug, Drop, Clone, Copy, PartialEq, Eq)]
pub struct Bounds {
    /// The width of `int`, in bits.
    pub int_bits: u32,
    /// The width of a hole that names none, in bits.
    pub cbits: u32,
    /// The width of an integer input, in bits.
    pub inbits: u32,
    /// How many turns a loop may make.
    pub unroll: u32,
    /// How many calls of one function may be active at once.
    pub inline_amnt: u32,
}

/// What a synthesis may spend; 0 is no budget.
#[derive(Debug, Drop, Clone, Copy, PartialEq, Eq)]
pub struct Budget {
    /// How many counterexamples may be found.
    pub rounds: u64,
    /// How many clauses one call of the solver may learn.
    pub conflicts: u64,
}
