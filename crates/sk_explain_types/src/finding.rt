//! What is found where a type cannot stand.
use crate::own::Class;
use crate::types::Type;
use sk_base::Span;

/// What stands where a type is wanted.
#[derive(Clone, Copy)]
pub enum Stands<'a> {
    Is(Type<'a>),
    /// A number above 1.
    Number(u32),
    Hole,
    Null,
    /// Braces with so many elements.
    Braces(usize),
}

/// What a name that is not there stands for.
#[derive(Debug, Clone, Copy, PartialEq, Eq)]
pub enum What<'a> {
    Function,
    Struct,
    /// A field of the struct of this name.
    Field(&'a [u8]),
}

/// Why a type, or a name, cannot stand where it does.
#[derive(Clone, Copy)]
pub enum Finding<'a> {
    /// One is wanted, and another stands there.
    Unfit {
        wanted: Type<'a>,
        stands: Stands<'a>,
    },
    /// A variable of one type is wanted for `ref`, and another stands there.
    Exact {
        wanted: Type<'a>,
        found: Type<'a>,
    },
    /// An operand of an operator is none for it; the operator stands behind these bytes.
    Operand {
        class: Class,
        stands: Stands<'a>,
        behind: u32,
    },
    /// The operands of an operator do not join; it stands behind these bytes.
    Apart {
        left: Stands<'a>,
        right: Stands<'a>,
        behind: u32,
    },
    /// What is looked into is no array, or no reference.
    Base {
        wanted: &'static [u8],
        found: Type<'a>,
    },
    /// A call has another number of arguments than its function.
    Count {
        wanted: usize,
        found: usize,
    },
    /// A name that is not there.
    Unknown {
        what: What<'a>,
        name: &'a [u8],
    },
    /// A function without a result returns one.
    NoResult,
    /// A function with a result returns none.
    WantsResult(Type<'a>),
}

/// What is wanted of an expression.
#[derive(Clone, Copy)]
pub enum Wanted<'a> {
    /// Nothing that is known.
    Any,
    At(Type<'a>),
    /// A variable of just this type.
    Exactly(Type<'a>),
}

/// Whether one span stands within another.
pub fn is_within(inner: Span, outer: Span) -> bool {
    outer.from <= inner.from && inner.to <= outer.to
}
