use crate::expr::PExpr;
use crate::ty::Ty;
use sk_base::{Boxed, List, Name, Span};

/// A typed statement.
#[derive(Debug, Drop)]
#[cycle(pstmt)]
pub struct PStmt {
    pub span: Span,
    pub form: PForm,
}

/// The form of a typed statement. The bodies of `If` and `While` and the copies of a repeat are
/// blocks.
#[derive(Debug, Drop)]
#[cycle(pstmt)]
pub enum PForm {
    Block(List<PStmt>),
    Declare {
        slot: u32,
        name: Name,
        ty: Ty,
        value: Option<PExpr>,
    },
    Assign {
        target: PExpr,
        value: PExpr,
    },
    Call(PExpr),
    If {
        cond: PExpr,
        then: Boxed<PStmt>,
        other: Option<Boxed<PStmt>>,
    },
    While {
        cond: PExpr,
        body: Boxed<PStmt>,
    },
    Return(Option<PExpr>),
    Assert(PExpr),
    Assume(PExpr),
    Minimize(PExpr),
    /// A repeat holds its copies: one statement before expansion.
    Repeat {
        count: PExpr,
        copies: List<PStmt>,
    },
    MinRepeat(List<PStmt>),
    Reorder(List<PStmt>),
}
