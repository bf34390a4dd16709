//! Why no proof is made.

ghost use Rattle.std.specs.Prelude.{◌≡◌};
ghost use Rattle.sk_min_certify.specs.declared.stop.Stop.TheVariants as stop;

use sk_clause::Log;
use sk_cnf::Encoded;
use sk_oblig_queries::Query;
use std::alloc::{AllocError, AllocFailed};

/// Why there is no proof.
#[derive(Debug, Drop)]
pub(crate) enum Stop {
    /// One call of the solver has learnt as many clauses as the budget says.
    Spent {
        query: Query,
        formula: Encoded,
        log: Log,
    },
    /// Memory is wanting.
    Memory,
}

impl From<AllocError> for Stop {
    ghost from_gives = { λ _ e. e ≡ stop.Memory };

    fn from(_e: AllocError) -> Stop {
        Stop::Memory
    }
}

impl<T: Drop> From<AllocFailed<T>> for Stop {
    ghost from_gives = { λ _ e. e ≡ stop.Memory };

    fn from(_e: AllocFailed<T>) -> Stop {
        Stop::Memory
    }
}
