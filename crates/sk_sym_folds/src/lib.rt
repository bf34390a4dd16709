//! Makers that fold constants and add no node where the answer is there already, and the values of holes as nodes.
#![tactic(auto)]

mod bits;
mod costs;
mod holes;
mod reading;
mod words;

pub use bits::{and, and_not, bool_mux, flag, not, or, xor};
pub use costs::cost_add;
pub use holes::{hole_flag, hole_number, site_above, site_is};
pub use reading::{known_bool, known_word};
pub use words::{add, div, eq, le, lt, mul, mux, neg, rem, sub, word};
