//! What is asked.

use sk_base::List;
use sk_model::{Choice, Input};

/// What the search asks.
#[derive(Debug, Drop)]
pub enum Query {
    /// An input of some obligation that breaks the filling by the choice, or an input of a harness that costs more than
    /// the limit.
    Bad {
        choice: Choice,
        limit: Option<u64>,
    },
    /// An input of the obligation with this number that breaks the filling by the choice or costs more than the limit. The
    /// parts of a certificate ask so; the search does not.
    BadAt {
        choice: Choice,
        obligation: u32,
        limit: u64,
    },
    /// A choice in range that no listed input breaks and that costs at most the limit on each.
    Wanted {
        inputs: List<Input>,
        limit: Option<u64>,
    },
}
