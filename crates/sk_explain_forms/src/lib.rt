//! Forms of C and of the original Sketch that the language leaves out: where a text stands on one, and what to write.
#![tactic(auto)]

mod bytes;
mod cases;
mod context;
mod cut;
mod forms;
mod keywords;
mod numbers;
mod patterns;
mod reading;
mod seen;
mod table;

pub use bytes::push_left_out_byte;
pub use cases::push_colon;
pub use keywords::near_keyword;
pub use patterns::{push_chosen, push_left_out_string, push_open_pattern};
pub use reading::push_left_out;
