ghost use Rattle.std.specs.Prelude.{◌≡◌};
ghost use Rattle.sk_interp.specs.declared.stop.Stop.TheVariants.{NoMemory};

use sk_base::Span;
use std::alloc::{AllocError, AllocFailed};

/// Why a run stops early.
#[derive(Drop)]
pub enum Stop {
    Failed { span: Span },
    Skipped { span: Span },
    NoMemory,
}

impl From<AllocError> for Stop {
    ghost from_gives = { λ _ stop. stop ≡ NoMemory };

    fn from(_error: AllocError) -> Stop {
        Stop::NoMemory
    }
}

impl<T: Drop> From<AllocFailed<T>> for Stop {
    ghost from_gives = { λ _ stop. stop ≡ NoMemory };

    fn from(_error: AllocFailed<T>) -> Stop {
        Stop::NoMemory
    }
}
