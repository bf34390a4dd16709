//! Lines and columns of a text: where a byte stands, which line it stands in, and what of it is shown.
#![tactic(auto)]

mod lines;
mod places;
mod spots;
mod visible;

pub use lines::line_of;
pub use places::{Place, place_of};
pub use spots::{Spot, push_excerpt, push_place, spot_of};
