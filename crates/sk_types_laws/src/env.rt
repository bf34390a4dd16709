//! What names mean, and what else an expression is typed by.
use sk_base::{Bounds, List, Name};
use sk_prog::{ConstId, FunId, FunKind, ParamDef, StructDef, StructId, Ty};
use sk_types_rules::Place;
use std::alloc::Global;

/// What a function is to its callers.
#[derive(Drop)]
pub struct Heading {
    pub name: Name,
    pub kind: FunKind,
    pub result: Option<Ty>,
    pub params: List<ParamDef>,
}

/// A constant that stands earlier, with its number.
#[derive(Drop)]
pub struct Constant {
    pub name: Name,
    pub number: u32,
}

/// What a name means.
#[derive(Drop, Clone, Copy)]
pub enum Meant {
    Variable(Place),
    Struct(StructId),
    Constant(ConstId),
    Function(FunId),
    Nothing,
}

/// What an expression is typed by, apart from the variables in scope: the bounds, what stands at the top of the
/// text, and the constants that stand earlier.
#[derive(Drop)]
pub struct Env<'a> {
    pub alloc: Global,
    pub bounds: Bounds,
    pub structs: &'a [StructDef],
    pub consts: &'a [Name],
    pub funs: &'a [Heading],
    pub known: &'a [Constant],
}
