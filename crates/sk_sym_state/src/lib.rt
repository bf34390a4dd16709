//! The state of a run over the nodes of a graph: where it goes on, how it has ended, its cost, its heap and its variables;
//! and the steps that change it.
#![tactic(auto)]

mod branch;
mod setting;
mod shapes;
mod slots;
mod state;
mod step;

pub use branch::{Fork, Side, larger};
pub use setting::Setting;
pub use shapes::{alike, join_shapes};
pub use state::{Ended, Frame, SymState};
