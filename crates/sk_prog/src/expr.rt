use crate::ids::{ConstId, FunId, StructId};
use crate::ty::Ty;
use sk_base::{Boxed, List, Name, Span};

/// A typed expression. A call of a void function has no type.
#[derive(Debug, Drop)]
#[cycle(pexpr)]
pub struct PExpr {
    pub span: Span,
    pub ty: Option<Ty>,
    pub form: PEForm,
}

/// The form of a typed expression.
#[derive(Debug, Drop)]
#[cycle(pexpr)]
pub enum PEForm {
    Number(u32),
    True,
    False,
    Null,
    Var {
        slot: u32,
        name: Name,
    },
    Const(ConstId),
    /// A hole, with its width in bits where it names one.
    Hole(Option<u32>),
    /// A pattern, with the expressions that it may stand for.
    Pattern(List<PExpr>),
    Paren(Boxed<PExpr>),
    Call {
        f: FunId,
        args: List<PExpr>,
    },
    New {
        s: StructId,
        fields: List<PField>,
    },
    Braces(List<PExpr>),
    Member {
        base: Boxed<PExpr>,
        s: StructId,
        field: u32,
    },
    Index {
        base: Boxed<PExpr>,
        index: Boxed<PExpr>,
    },
    Slice {
        base: Boxed<PExpr>,
        from: Boxed<PExpr>,
        length: u32,
    },
    Unary {
        op: UnOp,
        of: Boxed<PExpr>,
    },
    Binary {
        op: BinOp,
        left: Boxed<PExpr>,
        right: Boxed<PExpr>,
    },
    Cond {
        cond: Boxed<PExpr>,
        then: Boxed<PExpr>,
        other: Boxed<PExpr>,
    },
    /// The coercion of a bit to an integer.
    ToInt(Boxed<PExpr>),
    /// The coercion to a longer array, with zeros or nulls behind.
    Pad(Boxed<PExpr>),
}

/// A field that `new` sets, by its place in the struct.
#[derive(Debug, Drop)]
#[cycle(pexpr)]
pub struct PField {
    pub field: u32,
    pub value: PExpr,
}

/// The operators before an operand: `!`, `~` and `-`.
#[derive(Debug, Drop, Clone, Copy, PartialEq, Eq)]
pub enum UnOp {
    Not,
    Flip,
    Neg,
}

/// The operators between two operands. `And`, `Xor` and `Or` are `&`, `^` and `|`; `AndThen` and
/// `OrElse` are `&&` and `||`.
#[derive(Debug, Drop, Clone, Copy, PartialEq, Eq)]
pub enum BinOp {
    Mul,
    Div,
    Rem,
    Add,
    Sub,
    Shl,
    Shr,
    Lt,
    Le,
    Gt,
    Ge,
    Eq,
    Ne,
    And,
    Xor,
    Or,
    AndThen,
    OrElse,
}
