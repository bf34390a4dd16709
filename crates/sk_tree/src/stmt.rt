use crate::expr::Expr;
use crate::item::TyTree;
use sk_base::{Boxed, List, Name, Span};

/// A statement, with the bytes that it stands on.
#[derive(Debug, Drop)]
#[cycle(stmt)]
pub struct Stmt {
    pub span: Span,
    pub form: Form,
}

/// The form of a statement.
#[derive(Debug, Drop)]
#[cycle(stmt)]
pub enum Form {
    Block(List<Stmt>),
    /// `;` alone.
    Empty,
    Declare {
        ty: TyTree,
        names: List<Declared>,
    },
    Assign {
        target: Expr,
        value: Expr,
    },
    Call(Expr),
    /// `by` is there exactly for `+=` and `-=`.
    Step {
        kind: StepKind,
        target: Expr,
        by: Option<Expr>,
    },
    If {
        cond: Expr,
        then: Boxed<Stmt>,
        other: Option<Boxed<Stmt>>,
    },
    While {
        cond: Expr,
        body: Boxed<Stmt>,
    },
    /// `first` and `next` are spelt without a `;`.
    For {
        first: Boxed<Stmt>,
        cond: Expr,
        next: Boxed<Stmt>,
        body: Boxed<Stmt>,
    },
    Return(Option<Expr>),
    Assert(Expr),
    Assume(Expr),
    Minimize(Expr),
    Repeat {
        count: Expr,
        body: Boxed<Stmt>,
    },
    MinRepeat(Boxed<Stmt>),
    Reorder(List<Stmt>),
}

/// One name of a declaration, with its value where it has one.
#[derive(Debug, Drop)]
pub struct Declared {
    pub name: Name,
    pub value: Option<Expr>,
}

/// The six forms of a step.
#[derive(Debug, Drop, Clone, Copy, PartialEq, Eq)]
pub enum StepKind {
    /// `t++`
    PostInc,
    /// `t--`
    PostDec,
    /// `++t`
    PreInc,
    /// `--t`
    PreDec,
    /// `t += e`
    Add,
    /// `t -= e`
    Sub,
}
