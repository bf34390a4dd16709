//! What a rule makes of a node.

use sk_dag::Node;

/// What stands for a node of which some rule may have been an instance.
#[derive(Clone, Copy, PartialEq, Eq, Debug)]
pub enum Reduced {
    /// A node that is there, by its number.
    Known(usize),
    /// A node that no rule fits, to be put into the graph.
    Fresh(Node),
}
