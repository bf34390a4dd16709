use crate::expr::PExpr;
use crate::ids::FunId;
use crate::stmt::PStmt;
use crate::ty::Ty;
use sk_base::{List, Name};

/// A typed program.
#[derive(Debug, Drop)]
pub struct Prog {
    pub structs: List<StructDef>,
    pub consts: List<ConstDef>,
    pub funs: List<Fun>,
}

/// A struct.
#[derive(Debug, Drop)]
pub struct StructDef {
    pub name: Name,
    pub fields: List<FieldDef>,
}

/// A field of a struct.
#[derive(Debug, Drop)]
pub struct FieldDef {
    pub name: Name,
    pub ty: Ty,
}

/// A constant, with its number.
#[derive(Debug, Drop)]
pub struct ConstDef {
    pub name: Name,
    pub value: PExpr,
    pub number: i64,
}

/// A parameter. Its slot is its place in the list of parameters.
#[derive(Debug, Drop)]
pub struct ParamDef {
    pub name: Name,
    pub ty: Ty,
    pub by_ref: bool,
}

/// Whether a function is marked as a harness or as a generator.
#[derive(Debug, Drop, Clone, Copy, PartialEq, Eq)]
pub enum FunKind {
    Plain,
    Harness,
    Generator,
}

/// A function. `slots` is the greatest number of variables in scope at one place of it. The slot of
/// a declaration is the number of variables in scope just before it, hidden ones counted.
#[derive(Debug, Drop)]
pub struct Fun {
    pub name: Name,
    pub kind: FunKind,
    pub result: Option<Ty>,
    pub params: List<ParamDef>,
    pub slots: u32,
    pub implements: Option<FunId>,
    pub body: List<PStmt>,
}
