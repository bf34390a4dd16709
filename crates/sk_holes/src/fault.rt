//! Why a program is not filled.
ghost use Rattle.std.specs.Prelude.{◌≡◌};
ghost use Rattle.sk_holes.specs.declared.fault.FillFault.TheVariants.{Memory};

use std::alloc::AllocError;
use thiserror::Error;

/// Why a program is not filled.
#[derive(Debug, Drop, Clone, Copy, PartialEq, Eq, Error)]
pub enum FillFault {
    /// The choice has not as many values as there are sites.
    #[error("the choice has not one value for each site")]
    WrongLength,
    /// This is the first site whose value is not below its size.
    #[error("the value of site {site} is out of range")]
    OutOfRange { site: u32 },
    /// There was not enough memory.
    #[error("not enough memory")]
    Memory,
}

impl From<AllocError> for FillFault {
    ghost from_gives = { λ _ fault. fault ≡ Memory };

    fn from(_: AllocError) -> FillFault {
        FillFault::Memory
    }
}
