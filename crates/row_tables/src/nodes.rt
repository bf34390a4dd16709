//! Whether numbers name nodes of a graph, so that a table may hold any numbers.

ghost use Rattle.std.specs.Prelude.{IsTrue};
ghost use Rattle.sk_base.specs.Word.{IsWord};
ghost use Rattle.sk_dag.specs.Graph.{HasBool, HasWord, HasCost};

use sk_base::wrap;
use sk_dag::{BoolId, CostId, Dag, Node, WordId};

/// Whether the number names a truth value of the graph.
pub fn has_bool(dag: &Dag, a: BoolId) -> bool
    ensures { IsTrue result → HasBool dag.now.nodes a }
{
    if a.index >= dag.len() {
        return false;
    }
    match *dag.node(a.index) {
        Node::Flag(_) | Node::HoleBit(_, _) | Node::InputBit(_) | Node::Not(_) => true,
        Node::And(_, _) | Node::Or(_, _) | Node::Xor(_, _) | Node::BoolMux(_, _, _) => true,
        Node::Lt(_, _) | Node::Eq(_, _) | Node::CostLe(_, _) => true,
        _ => false,
    }
}

/// Whether the number names a word of the graph.
pub fn has_word(dag: &Dag, a: WordId) -> bool
    ensures { IsTrue result → HasWord dag.now.nodes a }
{
    if a.index >= dag.len() {
        return false;
    }
    match *dag.node(a.index) {
        Node::Word(_) | Node::HoleWord(_) | Node::InputWord(_) | Node::Mux(_, _, _) => true,
        Node::Add(_, _) | Node::Sub(_, _) | Node::Mul(_, _) | Node::Div(_, _) => true,
        Node::Rem(_, _) => true,
        _ => false,
    }
}

/// Whether the number names a cost of the graph.
pub fn has_cost(dag: &Dag, a: CostId) -> bool
    ensures { IsTrue result → HasCost dag.now.nodes a }
{
    if a.index >= dag.len() {
        return false;
    }
    match *dag.node(a.index) {
        Node::CostZero | Node::CostAdd(_, _, _) => true,
        _ => false,
    }
}

/// Whether a number is a word of so many bits.
pub fn is_word(bits: u32, number: i64) -> bool
    ensures { IsTrue result → IsWord bits number }
{
    bits >= 2 && bits <= 32 && wrap(bits, number) == number
}
