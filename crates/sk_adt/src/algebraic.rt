ghost use Rattle.std.specs.Prelude.{◌≡◌};
ghost use Rattle.sk_adt.specs.declared.algebraic.AdtFault.TheVariants as fault;

use sk_base::{List, Name};
use sk_tree::Token;
use std::alloc::{AllocError, AllocFailed};
use thiserror::Error;

/// A variant of an algebraic type. Its fields have numbers from 0, in their order.
#[derive(Debug, Drop)]
pub struct Variant {
    pub name: Name,
    pub fields: List<Name>,
}

/// An algebraic type. Its variants have numbers from 0, in their order.
#[derive(Debug, Drop)]
pub struct Algebraic {
    pub name: Name,
    pub variants: List<Variant>,
}

/// The tokens of a plain sketch, and the algebraic types of the text that it was.
#[derive(Debug, Drop)]
pub struct Lowered {
    pub tokens: List<Token>,
    pub types: List<Algebraic>,
}

/// Why a text has no plain form. `at` is a byte offset from the text's first byte: the first byte of the token that
/// is at fault.
#[derive(Debug, Drop, Clone, Copy, PartialEq, Eq, Error)]
pub enum AdtFault {
    /// An `adt`, `switch` or `case` stands outside its form.
    #[error("an `adt`, `switch` or `case` at byte {at} stands outside its form")]
    NoForm { at: u32 },
    /// A name stands twice among types and variants, among the fields of a variant, or among the cases of a
    /// `switch`: the later of the two.
    #[error("the name at byte {at} stands twice")]
    Twice { at: u32 },
    /// A case names no variant, or one of another type than the first case.
    #[error("the case at byte {at} names no variant, or one of another type")]
    NoVariant { at: u32 },
    /// A type has more than 16 variants, or a variant more than 16 fields: its name.
    #[error("the type or variant at byte {at} has more than 16 variants or fields")]
    TooMany { at: u32 },
    /// Memory is wanting.
    #[error("not enough memory")]
    Memory,
}

impl From<AllocError> for AdtFault {
    ghost from_gives = { λ _ e. e ≡ fault.Memory };

    fn from(_e: AllocError) -> AdtFault {
        AdtFault::Memory
    }
}

impl<T: Drop> From<AllocFailed<T>> for AdtFault {
    ghost from_gives = { λ _ e. e ≡ fault.Memory };

    fn from(_e: AllocFailed<T>) -> AdtFault {
        AdtFault::Memory
    }
}
