use crate::expr::Expr;
use crate::stmt::Stmt;
use sk_base::{List, Name};

/// The tree of a whole text.
#[derive(Debug, Drop)]
pub struct Tree {
    pub items: List<Item>,
}

/// An item at the top of a text.
#[derive(Debug, Drop)]
pub enum Item {
    Pragma { word: Name, text: Name },
    Struct { name: Name, fields: List<Field> },
    Const { name: Name, value: Expr },
    Fun(FunItem),
}

/// A field of a struct.
#[derive(Debug, Drop)]
pub struct Field {
    pub ty: TyTree,
    pub name: Name,
}

/// A parameter of a function.
#[derive(Debug, Drop)]
pub struct Param {
    pub by_ref: bool,
    pub ty: TyTree,
    pub name: Name,
}

/// Whether a function is marked as a harness or as a generator.
#[derive(Debug, Drop, Clone, Copy, PartialEq, Eq)]
pub enum FunKind {
    Plain,
    Harness,
    Generator,
}

/// A function. A `result` of none is `void`.
#[derive(Debug, Drop)]
pub struct FunItem {
    pub kind: FunKind,
    pub result: Option<TyTree>,
    pub name: Name,
    pub params: List<Param>,
    pub implements: Option<Name>,
    pub body: List<Stmt>,
}

/// A type as it is written: a base and none, one or two lengths.
#[derive(Debug, Drop)]
pub struct TyTree {
    pub base: Base,
    pub lengths: List<Expr>,
}

/// The base of a type.
#[derive(Debug, Drop)]
pub enum Base {
    Int,
    Bit,
    /// A struct by its name.
    Named(Name),
}
