//! That the expansion of a program which keeps the rules is what its tree says, with copies: laws of names and of
//! walks, with nothing to run.
#![tactic(auto)]

mod laws;

pub use laws::{
    copies_are_few, copies_are_numbered, expansions_are_expanded, fillings_keep_rules,
    names_stay_distinct,
};
