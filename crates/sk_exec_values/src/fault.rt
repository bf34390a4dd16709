ghost use Rattle.std.specs.Prelude.{◌≡◌};
ghost use Rattle.sk_exec_values.specs.declared.fault.ArgumentFault.TheVariants.{Memory};

use std::alloc::{AllocError, AllocFailed};
use thiserror::Error;

/// Why words are no arguments of a function.
#[derive(Debug, Drop, Clone, Copy, PartialEq, Eq, Error)]
pub enum ArgumentFault {
    /// The type of a parameter or of the result holds a reference.
    #[error("the function takes or gives a reference")]
    References,
    /// There are not as many words as parameters.
    #[error("there are not as many values as parameters")]
    Count,
    /// A word spells no value of its parameter's type; all before it spell one.
    #[error("value {index} is none of its parameter's type")]
    Value { index: usize },
    /// There was not enough memory.
    #[error("not enough memory")]
    Memory,
}

impl From<AllocError> for ArgumentFault {
    ghost from_gives = { λ _ e. e ≡ Memory };

    fn from(_: AllocError) -> ArgumentFault {
        ArgumentFault::Memory
    }
}

impl<T: Drop> From<AllocFailed<T>> for ArgumentFault {
    ghost from_gives = { λ _ e. e ≡ Memory };

    fn from(_: AllocFailed<T>) -> ArgumentFault {
        ArgumentFault::Memory
    }
}
