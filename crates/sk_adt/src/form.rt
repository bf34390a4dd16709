//! What a text with algebraic types is made of.

use sk_base::{List, Name, Span};
use sk_tree::Token;

/// A word, where it stands.
#[derive(Drop)]
pub struct Word {
    pub name: Name,
    pub span: Span,
}

/// A field of a variant: the tokens of its type, its name, and its `;`.
#[derive(Drop)]
pub struct FieldForm {
    pub ty: List<Token>,
    pub word: Word,
    pub end: Span,
}

/// A variant of an `adt`.
#[derive(Drop)]
pub struct VariantForm {
    pub word: Word,
    pub fields: List<FieldForm>,
}

/// The item `adt`: its keyword, its name, its braces and its variants.
#[derive(Drop)]
pub struct TypeForm {
    pub at: Span,
    pub word: Word,
    pub open: Span,
    pub variants: List<VariantForm>,
    pub close: Span,
}

/// `switch (x)`: its keyword, its parentheses, and the variable between them.
#[derive(Drop)]
pub struct SwitchHead {
    pub at: Span,
    pub open: Span,
    pub on: Word,
    pub close: Span,
}

/// What stands round the block of a case: the word behind `case`, and the braces.
#[derive(Drop)]
pub struct CaseHead {
    pub word: Word,
    pub open: Span,
    pub close: Span,
}

/// A case of a `switch`, with the pieces of its block.
#[derive(Drop)]
#[cycle(piece)]
pub struct CaseForm {
    pub head: CaseHead,
    pub body: List<Piece>,
}

/// A piece of a text with algebraic types.
#[derive(Drop)]
#[cycle(piece)]
pub enum Piece {
    Type(TypeForm),
    Switch {
        head: SwitchHead,
        cases: List<CaseForm>,
    },
    /// `x.f`, where no `.` stands before it.
    Member {
        on: Word,
        dot: Span,
        field: Word,
    },
    /// `.f` behind anything else.
    Behind {
        dot: Span,
        field: Word,
    },
    /// Any other token.
    Plain(Token),
}

/// A variant by its words: its name, and those of its fields.
#[derive(Drop)]
pub struct VariantWords {
    pub word: Word,
    pub fields: List<Word>,
}

/// An algebraic type by its words: its name, and its variants.
#[derive(Drop)]
pub struct TypeWords {
    pub word: Word,
    pub variants: List<VariantWords>,
}

/// A variant of some type: its name, the name of the type, its number there, and the names of its fields.
#[derive(Drop)]
pub struct Known {
    pub name: Name,
    pub ty: Name,
    pub number: usize,
    pub fields: List<Name>,
}

/// A case in whose block a token stands: the variable of its `switch`, and the name of its variant.
#[derive(Drop)]
pub struct Inside {
    pub on: Name,
    pub variant: Name,
}

/// What stands before a token: `new`, `new` and the name of a variant that is built, or anything else.
#[derive(Drop)]
pub enum Before {
    Other,
    New,
    Variant(Name),
}

/// Where the tokens of `if (x.tag == i)` stand: `if`, the parenthesis that opens, x and the tokens behind it, and the
/// parenthesis that closes.
#[derive(Drop, Clone, Copy)]
pub struct Spots {
    pub at: Span,
    pub opening: Span,
    pub on: Span,
    pub closing: Span,
}
