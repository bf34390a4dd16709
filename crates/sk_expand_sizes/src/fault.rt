//! Why a program is too large.
ghost use Rattle.std.specs.Prelude.{◌≡◌};
ghost use Rattle.sk_expand_sizes.specs.declared.fault.SizeFault.TheVariants.{Memory};

use std::alloc::{AllocError, AllocFailed};
use thiserror::Error;

/// Why a program is too large to be searched.
#[derive(Debug, Drop, Clone, Copy, PartialEq, Eq, Error)]
pub enum SizeFault {
    /// Its expansion has too many statements and expressions.
    #[error("the expansion has more than 262144 nodes")]
    Copies,
    /// Its expansion leaves too many places open.
    #[error("the expansion has more than 4096 sites")]
    Sites,
    /// Its runs may take too many steps.
    #[error("the runs take more than 262144 steps")]
    Steps,
    /// A run may make too many records.
    #[error("a run makes more than 256 records")]
    News,
    /// There was not enough memory.
    #[error("not enough memory")]
    Memory,
}

impl From<AllocError> for SizeFault {
    ghost from_gives = { λ _ fault. fault ≡ Memory };

    fn from(_: AllocError) -> SizeFault {
        SizeFault::Memory
    }
}

impl<T: Drop> From<AllocFailed<T>> for SizeFault {
    ghost from_gives = { λ _ fault. fault ≡ Memory };

    fn from(_: AllocFailed<T>) -> SizeFault {
        SizeFault::Memory
    }
}
