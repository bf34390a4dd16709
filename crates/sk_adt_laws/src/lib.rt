//! Laws of plain forms: laws alone, with nothing to run.
#![tactic(auto)]

mod laws;

pub use laws::{
    lowering_examples, no_word_is_left, plain_forms_are_small, plain_texts_stay,
    types_become_structs,
};
