//! Marks of the nodes below some roots, and nodes over other numbers.

ghost use Rattle.std.specs.Prelude.{◌≡◌, ◌<◌, ℕ, All, Some, false, length, replicate, slice_get};
ghost use Rattle.sk_dag.specs.Reach.{children, Each, MarksReached, renumbered as renumbered_node, new_bool, new_word, new_cost, with_marks};

use crate::node::{BoolId, CostId, Node, WordId};

// Marks the roots.
fn mark_roots(roots: &[BoolId], marks: &mut [bool])
    requires { All (λ r. r.index < length marks.old) roots.now }
    ensures { marks.new ≡ with_marks (λ r. r.index) roots.now marks.old }
{
    for root in roots {
        marks[root.index] = true;
    }
}

// Marks the children of a node.
fn mark_children(node: Node, marks: &mut [bool])
    requires { Each (λ c. c < length marks.old) (children node) }
    ensures { marks.new ≡ with_marks (λ c. c) (children node) marks.old }
{
    match node {
        Node::Flag(_) | Node::Word(_) | Node::HoleBit(_, _) | Node::HoleWord(_) => {}
        Node::InputBit(_) | Node::InputWord(_) | Node::CostZero => {}
        Node::Not(a) => marks[a.index] = true,
        Node::CostLe(cost, _) => marks[cost.index] = true,
        Node::And(a, b) | Node::Or(a, b) | Node::Xor(a, b) => {
            marks[a.index] = true;
            marks[b.index] = true;
        }
        Node::Add(a, b) | Node::Sub(a, b) | Node::Mul(a, b) | Node::Div(a, b) => {
            marks[a.index] = true;
            marks[b.index] = true;
        }
        Node::Rem(a, b) | Node::Lt(a, b) | Node::Eq(a, b) => {
            marks[a.index] = true;
            marks[b.index] = true;
        }
        Node::BoolMux(c, a, b) => {
            marks[c.index] = true;
            marks[a.index] = true;
            marks[b.index] = true;
        }
        Node::Mux(c, a, b) => {
            marks[c.index] = true;
            marks[a.index] = true;
            marks[b.index] = true;
        }
        Node::CostAdd(cost, when, amount) => {
            marks[cost.index] = true;
            marks[when.index] = true;
            marks[amount.index] = true;
        }
    }
}

// Marks the roots and the nodes below them, from parents to children.
pub(crate) fn mark_reached(nodes: &[Node], roots: &[BoolId], marks: &mut [bool])
    requires fresh { marks.old ≡ replicate (length nodes.now) false }
    requires roots { All (λ r. r.index < length nodes.now) roots.now }
    requires ordered { (i : ℕ) (n : Node) → slice_get nodes.now i ≡ Some n → Each (λ c. c < i) (children n) }
    ensures { MarksReached nodes.now roots.now marks.new }
{
    mark_roots(roots, marks);
    let mut i = nodes.len();
    while i > 0 {
        i -= 1;
        if marks[i] {
            mark_children(nodes[i], marks);
        }
    }
}

pub(crate) fn new_bool_id(numbers: &[usize], a: BoolId) -> BoolId
    requires { a.index < length numbers.now }
    ensures { result ≡ new_bool numbers.now a }
{
    BoolId {
        index: numbers[a.index],
    }
}

fn new_word_id(numbers: &[usize], a: WordId) -> WordId
    requires { a.index < length numbers.now }
    ensures { result ≡ new_word numbers.now a }
{
    WordId {
        index: numbers[a.index],
    }
}

fn new_cost_id(numbers: &[usize], a: CostId) -> CostId
    requires { a.index < length numbers.now }
    ensures { result ≡ new_cost numbers.now a }
{
    CostId {
        index: numbers[a.index],
    }
}

impl Node {
    /// The same operator over other nodes: in the place of each child, the number that stands at
    /// the child's number in the list.
    pub fn renumbered(self, numbers: &[usize]) -> Node
        requires { Each (λ c. c < length numbers.now) (children self) }
        ensures { result ≡ renumbered_node numbers.now self }
    {
        match self {
            Node::Flag(_) | Node::Word(_) | Node::HoleBit(_, _) | Node::HoleWord(_) => self,
            Node::InputBit(_) | Node::InputWord(_) | Node::CostZero => self,
            Node::Not(a) => Node::Not(new_bool_id(numbers, a)),
            Node::And(a, b) => Node::And(new_bool_id(numbers, a), new_bool_id(numbers, b)),
            Node::Or(a, b) => Node::Or(new_bool_id(numbers, a), new_bool_id(numbers, b)),
            Node::Xor(a, b) => Node::Xor(new_bool_id(numbers, a), new_bool_id(numbers, b)),
            Node::Add(a, b) => Node::Add(new_word_id(numbers, a), new_word_id(numbers, b)),
            Node::Sub(a, b) => Node::Sub(new_word_id(numbers, a), new_word_id(numbers, b)),
            Node::Mul(a, b) => Node::Mul(new_word_id(numbers, a), new_word_id(numbers, b)),
            Node::Div(a, b) => Node::Div(new_word_id(numbers, a), new_word_id(numbers, b)),
            Node::Rem(a, b) => Node::Rem(new_word_id(numbers, a), new_word_id(numbers, b)),
            Node::Lt(a, b) => Node::Lt(new_word_id(numbers, a), new_word_id(numbers, b)),
            Node::Eq(a, b) => Node::Eq(new_word_id(numbers, a), new_word_id(numbers, b)),
            Node::BoolMux(c, a, b) => Node::BoolMux(
                new_bool_id(numbers, c),
                new_bool_id(numbers, a),
                new_bool_id(numbers, b),
            ),
            Node::Mux(c, a, b) => Node::Mux(
                new_bool_id(numbers, c),
                new_word_id(numbers, a),
                new_word_id(numbers, b),
            ),
            Node::CostAdd(cost, when, amount) => Node::CostAdd(
                new_cost_id(numbers, cost),
                new_bool_id(numbers, when),
                new_word_id(numbers, amount),
            ),
            Node::CostLe(cost, limit) => Node::CostLe(new_cost_id(numbers, cost), limit),
        }
    }
}
