//! Command lines: what the words of a call of the program ask for, and which bounds they and the text
//! give.
#![tactic(auto)]

pub mod examples;
pub mod laws;
mod limits;
mod line;
mod lines;
mod matching;
mod number;
mod pragmas;
mod setting;
mod words;

pub use limits::bounds;
pub use line::{Line, Set, Usage};
pub use lines::options;
pub use number::pieces_of;
