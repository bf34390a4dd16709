//! The tokens and the tree of a text of Sketch: what the words on the page say, before any name has
//! a meaning.
#![tactic(auto)]

pub mod examples;
mod expr;
mod item;
pub mod laws;
mod pattern;
mod shape;
mod stmt;
mod token;

pub use expr::{EForm, Expr, NewField};
pub use item::{Base, Field, FunItem, FunKind, Item, Param, Tree, TyTree};
pub use pattern::Pattern;
pub use shape::Shape;
pub use stmt::{Declared, Form, StepKind, Stmt};
pub use token::{Key, Kind, Mark, Token};
