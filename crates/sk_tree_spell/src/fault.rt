ghost use Rattle.std.specs.Prelude.{◌≡◌};
ghost use Rattle.sk_tree_spell.specs.declared.fault.PatternFault.TheVariants.{Memory};

use std::alloc::{AllocError, AllocFailed};
use thiserror::Error;

/// Why a pattern's strings are not answered.
#[derive(Debug, Drop, Clone, Copy, PartialEq, Eq, Error)]
pub enum PatternFault {
    /// The pattern has more strings than a pattern may have.
    #[error("the pattern has more than 128 strings")]
    TooManyStrings,
    /// There was not enough memory.
    #[error("not enough memory")]
    Memory,
}

impl From<AllocError> for PatternFault {
    ghost from_gives = { λ _ e. e ≡ Memory };

    fn from(_: AllocError) -> PatternFault {
        PatternFault::Memory
    }
}

impl<T: Drop> From<AllocFailed<T>> for PatternFault {
    ghost from_gives = { λ _ e. e ≡ Memory };

    fn from(_: AllocFailed<T>) -> PatternFault {
        PatternFault::Memory
    }
}
