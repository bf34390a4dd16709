//! Shapes of zeros, written numbers, constants and holes, and values made longer.
#![tactic(auto)]

mod given;
mod hole;
mod padding;
mod written;

pub use given::{bit, null};
pub use hole::hole_value;
pub use padding::padded_at;
pub use written::{const_value, literal, zero_of};
