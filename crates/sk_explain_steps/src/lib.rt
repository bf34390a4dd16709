//! What a run did, step by step, beside the places of its text.
#![tactic(auto)]

mod line;
mod parts;
mod target;
mod tell;
mod tokens;

pub use parts::{push_part, push_place};
pub use tell::push_steps;
pub use tokens::{
    bytes_of, closes, function_at, is_key, is_mark, is_word, open_behind, opens, tokens_of,
};
