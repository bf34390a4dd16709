//! What an expansion keeps of the rules, and that a filling of one, by a choice in range, keeps the rules and is
//! well-formed: laws alone, with nothing to run.
#![tactic(auto)]

mod laws;

pub use laws::{
    choices_stay, exprs_fill, filled_means, holes_fill, kept_are_strings, operands_stay,
    own_types_fit, strings_fill, targets_fill,
};
