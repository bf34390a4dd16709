//! What the forms of a program do with the values of their parts, over the nodes of a graph.
#![tactic(auto)]

mod act;
mod double;
mod end;
mod leaf;
mod single;

pub use act::{Act, perform};
pub use double::{Double, apply_two};
pub use end::{declare_zero, fail_here, give_nothing};
pub use leaf::{constant, hole_here, nothing, number, truth};
pub use single::{Single, apply};
pub use sk_sym_frames as frames;
pub use sk_sym_leaves as leaves;
pub use sk_sym_literals as literals;
pub use sk_sym_steps as steps;
