ghost use Rattle.std.specs.Prelude.{◌≡◌};
ghost use Rattle.sk_parser.specs.declared.fault.ParseFault.TheVariants.{Memory};

use std::alloc::AllocError;
use thiserror::Error;

/// Why tokens have no tree, with a byte of the text.
#[derive(Debug, Drop, Clone, Copy, PartialEq, Eq, Error)]
pub enum ParseFault {
    /// The tokens read as no tree of depth at most 256: the token at this byte cannot go on, or is nested
    /// too deep.
    #[error("the text does not read on at byte {at}")]
    NoReading { at: u32 },
    /// A string of the pattern at this byte reads as no expression.
    #[error("a string of the pattern at byte {at} is no expression")]
    BadAlternative { at: u32 },
    /// The pattern at this byte has more than 128 strings.
    #[error("the pattern at byte {at} has more than 128 strings")]
    TooManyStrings { at: u32 },
    /// There was not enough memory.
    #[error("not enough memory")]
    Memory,
}

impl From<AllocError> for ParseFault {
    ghost from_gives = { λ _ e. e ≡ Memory };

    fn from(_: AllocError) -> ParseFault {
        ParseFault::Memory
    }
}
