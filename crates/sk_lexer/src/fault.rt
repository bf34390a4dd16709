ghost use Rattle.std.specs.Prelude.{◌≡◌};
ghost use Rattle.sk_lexer.specs.declared.fault.LexFault.TheVariants.{Memory};

use std::alloc::{AllocError, AllocFailed};
use thiserror::Error;

/// Why a text has no tokens: its first fault from the left, with the byte at which the faulty piece begins.
#[derive(Debug, Drop, Clone, Copy, PartialEq, Eq, Error)]
pub enum LexFault {
    /// No piece can stand at this byte.
    #[error("no token can begin at byte {at}")]
    BadByte { at: u32 },
    /// `/*` with no `*/` after it.
    #[error("the comment that begins at byte {at} does not end")]
    OpenComment { at: u32 },
    /// A number above 2,147,483,647.
    #[error("the number at byte {at} is too large")]
    LiteralTooLarge { at: u32 },
    /// `"` with no `"` after it in its line.
    #[error("the text that begins at byte {at} does not end in its line")]
    OpenString { at: u32 },
    /// There was not enough memory.
    #[error("not enough memory")]
    Memory,
}

impl From<AllocError> for LexFault {
    ghost from_gives = { λ _ e. e ≡ Memory };

    fn from(_: AllocError) -> LexFault {
        LexFault::Memory
    }
}

impl<T: Drop> From<AllocFailed<T>> for LexFault {
    ghost from_gives = { λ _ e. e ≡ Memory };

    fn from(_: AllocFailed<T>) -> LexFault {
        LexFault::Memory
    }
}
