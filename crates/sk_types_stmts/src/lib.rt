//! Typing of statements: what the body of a function becomes, and how many slots it needs.
#![tactic(auto)]

mod block;
mod free;
mod room;
mod single;
mod target;

pub use block::make_all;
pub use free::{body_free, is_free};
pub use room::most;
pub use single::{enter, written};
pub use target::value_at;
