//! Why a certificate is not accepted.

ghost use Rattle.std.specs.Prelude.{◌≡◌};
ghost use Rattle.sk_check.specs.declared.stop.Stop.TheVariants as stop;

use sk_check_laws::Reason;
use std::alloc::AllocError;

/// Why a certificate is not accepted.
#[derive(Debug, Drop)]
pub(crate) enum Stop {
    /// It is rejected.
    Rejected(Reason),
    /// Memory is wanting.
    Memory,
}

impl From<AllocError> for Stop {
    ghost from_gives = { λ _ e. e ≡ stop.Memory };

    fn from(_e: AllocError) -> Stop {
        Stop::Memory
    }
}
