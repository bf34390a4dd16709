//! Why a tree means no program.
ghost use Rattle.std.specs.Prelude.{◌≡◌};
ghost use Rattle.sk_types_laws.specs.declared.fault.Typing.TheVariants.{Memory};

use sk_base::Span;
use std::alloc::{AllocError, AllocFailed};
use thiserror::Error;

/// A rule of names and types that a text breaks.
#[derive(Debug, Drop, Clone, Copy, PartialEq, Eq)]
pub enum Rule {
    /// A name means nothing here, or something of another kind.
    UnknownName,
    /// A name is declared twice in one place.
    Twice,
    /// An expression does not fit where it stands.
    Mismatch,
    /// What is assigned to is no target, or what is handed to `ref` is no variable.
    NotTarget,
    /// A harness or a function with `implements` has a signature that it may not have.
    BadSignature,
    /// A length, a constant or a count is no constant expression.
    NotConstant,
    /// A number is above the greatest `int`.
    LiteralRange,
    /// A length, or the number of scalars of an array, is out of range.
    LengthRange,
    /// No string of a pattern fits where it stands.
    NoAlternative,
    /// A `reorder` holds too much, or a declaration.
    ReorderForm,
    /// A name ends as those of copies do.
    NameKept,
    /// The width of a hole is out of range.
    HoleWidth,
}

/// A rule that is broken, and where: a span of the text, or 0 to 0 where what breaks it has none.
#[derive(Debug, Drop, Clone, Copy, PartialEq, Eq)]
pub struct TypeFault {
    pub rule: Rule,
    pub span: Span,
}

/// Why there is no typed program.
#[derive(Debug, Drop, Clone, Copy, PartialEq, Eq, Error)]
pub enum Typing {
    /// The tree means no program.
    #[error("a rule of names and types is broken")]
    Fault(TypeFault),
    /// There was not enough memory.
    #[error("not enough memory")]
    Memory,
}

impl From<AllocError> for Typing {
    ghost from_gives = { λ _ fault. fault ≡ Memory };

    fn from(_: AllocError) -> Typing {
        Typing::Memory
    }
}

impl<T: Drop> From<AllocFailed<T>> for Typing {
    ghost from_gives = { λ _ fault. fault ≡ Memory };

    fn from(_: AllocFailed<T>) -> Typing {
        Typing::Memory
    }
}
