ghost use Rattle.std.specs.Prelude.{◌≡◌, IsTrue, OnOk};
ghost use Rattle.row_tables.specs.declared.fault.Fault.TheVariants.{Memory};

use std::alloc::{AllocError, AllocFailed};
use thiserror::Error;

/// Why a row was not tried to its end.
#[derive(Debug, Drop, Clone, Copy, PartialEq, Eq, Error)]
pub enum Fault {
    /// Something is not as the row says.
    #[error("not as the row says")]
    Wrong,
    /// There was not enough memory.
    #[error("not enough memory")]
    Memory,
}

impl From<AllocError> for Fault {
    ghost from_gives = { λ _ e. e ≡ Memory };

    fn from(_: AllocError) -> Fault {
        Fault::Memory
    }
}

impl<T: Drop> From<AllocFailed<T>> for Fault {
    ghost from_gives = { λ _ e. e ≡ Memory };

    fn from(_: AllocFailed<T>) -> Fault {
        Fault::Memory
    }
}

/// The row is wrong where this does not hold.
pub fn expect(holds: bool) -> Result<(), Fault>
    ensures { OnOk result (IsTrue holds) }
{
    if holds { Ok(()) } else { Err(Fault::Wrong) }
}
