//! What readers answer: a part of a tree, and how deep it is.

use sk_base::{Boxed, List};
use sk_tree::{Expr, NewField, Pattern};

/// A pattern, and how deep it is.
#[derive(Drop)]
pub struct DeepPattern {
    pub pattern: Boxed<Pattern>,
    pub depth: u32,
}

/// Parts of a pattern, and how deep the deepest is.
#[derive(Drop)]
pub struct Parts {
    pub items: List<Pattern>,
    pub depth: u32,
}

/// An expression, and how deep it is.
#[derive(Drop)]
pub struct Deep {
    pub expr: Boxed<Expr>,
    pub depth: u32,
}

/// Expressions, and how deep the deepest is.
#[derive(Drop)]
pub struct Row {
    pub items: List<Expr>,
    pub depth: u32,
}

/// Fields that `new` sets, and how deep the deepest is.
#[derive(Drop)]
pub struct Fields {
    pub items: List<NewField>,
    pub depth: u32,
}
