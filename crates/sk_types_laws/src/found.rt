//! What is found on the way from a tree to its program.

use sk_prog::{PEForm, Ty};

/// A field of a struct: its place and its type.
#[derive(Drop, Clone, Copy)]
pub struct Found {
    pub field: u32,
    pub ty: Ty,
}

/// The type of an array that is looked into, and the type of what is looked at.
#[derive(Drop, Clone, Copy)]
pub struct View {
    pub whole: Ty,
    pub part: Ty,
}

/// The types at which an operator wants its operands, and the type of its result.
#[derive(Drop, Clone, Copy)]
pub struct Wants {
    pub left: Ty,
    pub right: Ty,
    pub result: Ty,
}

/// A call, with the type of its result. A void function gives none.
#[derive(Drop)]
pub struct Called {
    pub result: Option<Ty>,
    pub form: PEForm,
}
