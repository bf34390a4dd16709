use sk_base::List;
use sk_interp_laws::Step;
use sk_model::Outcome;

/// A run: its first steps, whether there are others, and how it ends.
#[derive(Debug, Drop)]
pub struct Trace {
    /// The first 65,536 steps, oldest first, or all where there are fewer.
    pub steps: List<Step>,
    /// Whether there are others after them.
    pub more: bool,
    pub outcome: Outcome,
}
