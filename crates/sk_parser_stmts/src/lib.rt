//! Types and statements read from tokens.
#![tactic(auto)]

mod declare;
mod place;
mod simple;
mod stmt;

pub use declare::{ty_at, value_at};
pub use stmt::{ends_block, stmts_at};
