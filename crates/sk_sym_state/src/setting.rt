//! What is run.

use sk_model::{Choice, Expanded};
use sk_prog::Fun;
use std::alloc::Global;

/// What is run: a program, under a choice where one is given, inside a call of a function.
#[derive(Clone, Copy)]
pub struct Setting<'a> {
    pub alloc: Global,
    pub expanded: &'a Expanded,
    pub choice: Option<&'a Choice>,
    pub fun: &'a Fun,
}
