//! The call that does all that the program `sketch_check` does.
#![tactic(auto)]

mod ending;
mod judging;
mod words;

pub use ending::{Ending, message, status};
pub use judging::judge;
pub use sk_app_streams::{StdSink, StdSource};
