//! Why an expansion stops early.
ghost use Rattle.std.specs.Prelude.{◌≡◌};
ghost use Rattle.sk_expand.specs.declared.stop.Stop.TheVariants.{NoMemory};

use std::alloc::{AllocError, AllocFailed};

/// Why an expansion stops early.
#[derive(Drop)]
pub enum Stop {
    /// There would be more nodes than there may be.
    TooLarge,
    /// There was not enough memory, or parts of programs nest too deep.
    NoMemory,
}

impl From<AllocError> for Stop {
    ghost from_gives = { λ _ stop. stop ≡ NoMemory };

    fn from(_error: AllocError) -> Stop {
        Stop::NoMemory
    }
}

impl<T: Drop> From<AllocFailed<T>> for Stop {
    ghost from_gives = { λ _ stop. stop ≡ NoMemory };

    fn from(_error: AllocFailed<T>) -> Stop {
        Stop::NoMemory
    }
}
