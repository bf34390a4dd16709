//! What depends on a choice before anything runs: the turns of the statements of a `reorder` as nodes of a graph, what calls and
//! pays in each body with the tests under which it stands, such tests as nodes, and what the whole program pays.
#![tactic(auto)]

mod guard;
mod met;
mod node;
mod order;
mod payer;
mod payment;
mod program;
mod walker;

pub use payment::Payment;
pub use program::{orders, payments};
