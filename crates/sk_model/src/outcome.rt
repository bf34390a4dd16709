use sk_base::{List, Span};
use sk_prog::Value;

/// How a run ends. `refs` are the final values of the `ref` parameters in order.
#[derive(Debug, Drop)]
pub enum Outcome {
    Done {
        result: Option<Value>,
        refs: List<Value>,
        cost: u64,
    },
    Failed {
        span: Span,
    },
    Skipped {
        span: Span,
    },
}
