ghost use Rattle.std.specs.Prelude.{◌≡◌};
ghost use Rattle.sk_parser_laws.specs.declared.stop.Stop.TheVariants.{NoMemory};

use std::alloc::{AllocError, AllocFailed};

/// Why a reader stopped.
#[derive(Debug, Drop, Clone, Copy)]
pub enum Stop {
    NoMemory,
    /// Reading does not go on, where so many tokens are left.
    NoReading(usize),
}

impl From<AllocError> for Stop {
    ghost from_gives = { λ _ e. e ≡ NoMemory };

    fn from(_e: AllocError) -> Stop {
        Stop::NoMemory
    }
}

impl<T: Drop> From<AllocFailed<T>> for Stop {
    ghost from_gives = { λ _ e. e ≡ NoMemory };

    fn from(_e: AllocFailed<T>) -> Stop {
        Stop::NoMemory
    }
}
