//! That a text which means a program means one that keeps the rules and is well-formed: two laws, with nothing to run.
#![tactic(auto)]

mod laws;

pub use laws::{texts_are_well_formed, texts_keep_rules};
