use sk_base::Span;
use sk_prog::Value;

/// What a statement did.
#[derive(Debug, Drop)]
pub enum What {
    /// It stored this value.
    Store(Value),
    /// It found its condition to be this.
    Truth(bool),
    /// It added this number to the cost, or failed by it where it is negative.
    Cost(i64),
    /// It made its call, or returns.
    Go,
}

/// A step of a run.
#[derive(Debug, Drop)]
pub struct Step {
    /// The statement.
    pub span: Span,
    /// How many calls are active, from 1.
    pub active: u32,
    pub what: What,
}
