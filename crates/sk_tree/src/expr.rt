use crate::pattern::Pattern;
use crate::token::Mark;
use sk_base::{Boxed, List, Name, Span};

/// An expression, with the bytes that it stands on.
#[derive(Debug, Drop)]
#[cycle(expr)]
pub struct Expr {
    pub span: Span,
    pub form: EForm,
}

/// The form of an expression.
#[derive(Debug, Drop)]
#[cycle(expr)]
pub enum EForm {
    Number(u32),
    True,
    False,
    Null,
    Word(Name),
    /// `??`, or `??(n)` for a hole of n bits.
    Hole(Option<u32>),
    /// A pattern, with the trees of its strings in their order.
    Pattern {
        pattern: Pattern,
        strings: List<Expr>,
    },
    /// An expression in parentheses.
    Paren(Boxed<Expr>),
    Call {
        name: Name,
        args: List<Expr>,
    },
    New {
        name: Name,
        fields: List<NewField>,
    },
    Braces(List<Expr>),
    Member {
        base: Boxed<Expr>,
        name: Name,
    },
    Index {
        base: Boxed<Expr>,
        index: Boxed<Expr>,
    },
    Slice {
        base: Boxed<Expr>,
        from: Boxed<Expr>,
        length: Boxed<Expr>,
    },
    Unary {
        op: Mark,
        of: Boxed<Expr>,
    },
    Binary {
        op: Mark,
        left: Boxed<Expr>,
        right: Boxed<Expr>,
    },
    Cond {
        cond: Boxed<Expr>,
        then: Boxed<Expr>,
        other: Boxed<Expr>,
    },
}

/// `name = value` in the parentheses of `new`.
#[derive(Debug, Drop)]
#[cycle(expr)]
pub struct NewField {
    pub name: Name,
    pub value: Expr,
}
