//! Copies of the parts of programs, and the numbers that a program which is made of another one needs.
#![tactic(auto)]

mod copy;
mod ranks;
mod slots;

pub use copy::{copy_consts, copy_expr, copy_name, copy_params, copy_structs};
pub use ranks::{Ranks, number_functions};
pub use slots::slots_needed;
