//! Why a text has no expansion.
ghost use Rattle.std.specs.Prelude.{◌≡◌};
ghost use Rattle.sk_front.specs.declared.fault.SketchFault.TheVariants.{Memory};

use sk_expand_sizes::SizeFault;
use sk_lexer::LexFault;
use sk_parser::ParseFault;
use sk_types_laws::TypeFault;
use std::alloc::AllocError;
use thiserror::Error;

/// What is wrong with a text, with a byte of it: its first fault as bytes, or why its tokens read as no tree.
#[derive(Debug, Drop, Clone, Copy, PartialEq, Eq, Error)]
pub enum TextFault {
    /// Its first fault as bytes.
    #[error(transparent)]
    Lex(LexFault),
    /// Its tokens read as no tree.
    #[error(transparent)]
    Parse(ParseFault),
}

/// Why a text has no expansion within the limits.
#[derive(Debug, Drop, Clone, Copy, PartialEq, Eq, Error)]
pub enum SketchFault {
    /// It has no tokens, or these read as no tree.
    #[error("the text reads as no sketch")]
    NotText(TextFault),
    /// Its tree means no program.
    #[error("the sketch has no types")]
    NotTyped(TypeFault),
    /// The expansion of its program is too large. Want of memory is never told so.
    #[error("the sketch is too large")]
    TooLarge(SizeFault),
    /// There was not enough memory.
    #[error("not enough memory")]
    Memory,
}

impl From<AllocError> for SketchFault {
    ghost from_gives = { λ _ fault. fault ≡ Memory };

    fn from(_: AllocError) -> SketchFault {
        SketchFault::Memory
    }
}
