//! Types as the tree of a text says them.
use sk_explain_notes::Note;
use std::alloc::AllocError;

/// What the elements of an array, or a single value, are.
#[derive(Debug, Clone, Copy, PartialEq, Eq)]
pub enum Base<'a> {
    Int,
    Bit,
    /// A reference to a record of the struct of this name.
    Struct(&'a [u8]),
}

/// A type: a base with none, one or two lengths. A length that is not there is 0.
#[derive(Debug, Clone, Copy, PartialEq, Eq)]
pub struct Type<'a> {
    pub base: Base<'a>,
    /// Of the arrays that an array of arrays has as its elements; 0 where there is none.
    pub inner: i64,
    /// Of the array; 0 where it is none.
    pub outer: i64,
}

pub const INT: Type<'static> = Type {
    base: Base::Int,
    inner: 0,
    outer: 0,
};

pub const BIT: Type<'static> = Type {
    base: Base::Bit,
    inner: 0,
    outer: 0,
};

/// What an expression is by itself.
#[derive(Clone, Copy)]
pub enum Own<'a> {
    /// It breaks a rule, or nothing is known of it.
    Unknown,
    /// It takes the type of its place.
    Loose,
    Is(Type<'a>),
}

impl<'a> Type<'a> {
    /// Whether it is no array.
    pub fn is_single(self) -> bool {
        self.outer == 0
    }

    /// The type of its elements, where it is an array.
    pub fn element(self) -> Option<Type<'a>> {
        if self.is_single() {
            return None;
        }
        Some(Type {
            base: self.base,
            inner: 0,
            outer: self.inner,
        })
    }

    /// The array of so many of its elements.
    pub fn with_length(self, outer: i64) -> Type<'a> {
        Type {
            base: self.base,
            inner: self.inner,
            outer,
        }
    }

    /// Whether it is `bit` or `bit[n]`.
    pub fn is_bits(self) -> bool {
        self.base == Base::Bit && self.inner == 0
    }

    /// Whether it is a reference, or an array of some.
    pub fn is_reference(self) -> bool {
        match self.base {
            Base::Struct(_) => true,
            Base::Int | Base::Bit => false,
        }
    }

    /// Whether it is a longer array of the same elements as another.
    pub fn is_longer(self, other: Type<'a>) -> bool {
        self.base == other.base
            && self.inner == other.inner
            && other.outer > 0
            && self.outer > other.outer
    }

    /// Whether it is a `bit[n]`.
    pub fn is_word(self) -> bool {
        self.is_bits() && !self.is_single()
    }

    /// Whether an expression of this type may stand where another is wanted.
    pub fn fits(self, wanted: Type<'a>) -> bool {
        if self == wanted || (self == BIT && wanted == INT) {
            return true;
        }
        match wanted.element() {
            Some(element) if element == self => true,
            Some(element) => self.element() == Some(element) && self.outer <= wanted.outer,
            None => false,
        }
    }

    /// The type that two operands join to.
    pub fn joined(self, other: Type<'a>) -> Option<Type<'a>> {
        if self.fits(other) {
            Some(other)
        } else if other.fits(self) {
            Some(self)
        } else {
            None
        }
    }

    /// Appends it as it is written.
    pub fn push(self, note: &mut Note) -> Result<(), AllocError> {
        match self.base {
            Base::Int => note.word(b"int")?,
            Base::Bit => note.word(b"bit")?,
            Base::Struct(name) => note.word(name)?,
        }
        push_length(note, self.inner)?;
        push_length(note, self.outer)
    }
}

// Appends a length, where there is one.
fn push_length(note: &mut Note, length: i64) -> Result<(), AllocError> {
    match u64::try_from(length) {
        Ok(length) if length > 0 => {
            note.word(b"[")?;
            note.number(length)?;
            note.word(b"]")
        }
        _ => Ok(()),
    }
}
