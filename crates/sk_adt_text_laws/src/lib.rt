//! Laws of the programs that plain forms mean: laws alone, with nothing to run.
#![tactic(auto)]

mod laws;

pub use laws::{
    lowered_programs_are_shown, lowered_programs_fit, lowered_programs_keep_rules,
    lowered_runs_keep_variants, lowered_tags_are_integers,
};
