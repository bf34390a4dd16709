//! Text for people, and what there is to tell of words that are no command line.
#![tactic(auto)]

mod near;
mod note;
mod numbers;
mod options;
mod slips;
mod words;

pub use near::{near_by, nearest};
pub use note::{Note, Told};
pub use options::{CHOICES, Choice, Command, Range, Takes};
pub use words::tell_words;
