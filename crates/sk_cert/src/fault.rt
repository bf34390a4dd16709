ghost use Rattle.std.specs.Prelude.{◌≡◌};
ghost use Rattle.sk_cert.specs.declared.fault.CertFault.TheVariants.{Memory};

use std::alloc::{AllocError, AllocFailed};
use thiserror::Error;

/// Why a text is that of no certificate. Lines are numbered from 1; where a text ends too early, the line is the one
/// behind its last.
#[derive(Debug, Drop, Clone, Copy, PartialEq, Eq, Error)]
pub enum CertFault {
    /// This line is the first that departs from the form.
    #[error("line {line} departs from the form of a certificate")]
    NoForm { line: u32 },
    /// This line is the first that departs from the form, and says that the certificate is of another version.
    #[error("line {line} is that of a certificate of another version")]
    Version { line: u32 },
    /// There was not enough memory.
    #[error("not enough memory")]
    Memory,
}

impl From<AllocError> for CertFault {
    ghost from_gives = { λ _ e. e ≡ Memory };

    fn from(_: AllocError) -> CertFault {
        CertFault::Memory
    }
}

impl<T: Drop> From<AllocFailed<T>> for CertFault {
    ghost from_gives = { λ _ e. e ≡ Memory };

    fn from(_: AllocFailed<T>) -> CertFault {
        CertFault::Memory
    }
}
