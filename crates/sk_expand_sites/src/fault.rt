//! Why the sites of a program are not listed.
ghost use Rattle.std.specs.Prelude.{◌≡◌};
ghost use Rattle.sk_expand_sites.specs.declared.fault.SitesFault.TheVariants.{Memory};

use std::alloc::{AllocError, AllocFailed};
use thiserror::Error;

/// Why the sites of a program are not listed.
#[derive(Debug, Drop, Clone, Copy, PartialEq, Eq, Error)]
pub enum SitesFault {
    /// There are more than 4,096.
    #[error("the expansion has more than 4096 sites")]
    TooMany,
    /// There was not enough memory, or a site has more than 2^32 values, as none of a typed program has.
    #[error("not enough memory")]
    Memory,
}

impl From<AllocError> for SitesFault {
    ghost from_gives = { λ _ fault. fault ≡ Memory };

    fn from(_: AllocError) -> SitesFault {
        SitesFault::Memory
    }
}

impl<T: Drop> From<AllocFailed<T>> for SitesFault {
    ghost from_gives = { λ _ fault. fault ≡ Memory };

    fn from(_: AllocFailed<T>) -> SitesFault {
        SitesFault::Memory
    }
}
