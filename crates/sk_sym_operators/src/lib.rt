//! What the operators of a program do with shapes: a shape, and a node that holds where they fail.
#![tactic(auto)]

mod binary;
mod bitwise;
mod element;
mod fitting;
mod form;
mod operated;
mod reading;
mod rows;
mod single;
mod words;

pub use binary::operator;
pub use element::{are_alike, indexed, like_all, sliced};
pub use form::alike;
pub use operated::Operated;
pub use single::{to_int, unary};
