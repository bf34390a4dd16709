//! A number that stands where there is none yet.

use crate::node::BoolId;

/// The number 0, which fills the unused places of a list that keeps a few targets in itself. It says nothing of a graph.
impl Default for BoolId {
    fn default() -> BoolId {
        BoolId { index: 0 }
    }
}
