//! Puts nodes into a graph in which no rule fits any node.

ghost use Rattle.std.specs.Prelude.{◌≡◌, ◌≤◌, ◌<◌, false, true, length, IfOk, IsTrue};
ghost use Rattle.sk_dag.specs.Graph.{MayFollow};
ghost use Rattle.sk_dag.specs.Eval.{Keeps};
ghost use Rattle.sk_dag.specs.Reach.{AddsAtMost, children, Each, renumbered};
ghost use Rattle.sk_simplify.specs.Rules.{IsSimple};
ghost use Rattle.sk_simplify.specs.Reduct.{IsReduct, IsReordered, IsWorth, is_swapped};

use crate::reduced::Reduced::{self, Fresh, Known};
use crate::rules;
use sk_dag::{Dag, Node};
use std::alloc::AllocError;

// The node with the operands of a commutative operator in the order of their numbers.
#[tactic(auto, using(crate::proofs::RuleLemmas::reordering), unfolding(sk_dag::specs::Eval::value_of))]
fn ordered(node: Node) -> Node
    ensures order { is_swapped result ≡ false }
    ensures same { IsReordered node result }
{
    match node {
        Node::And(a, b) => {
            if b.index < a.index {
                Node::And(b, a)
            } else {
                node
            }
        }
        Node::Or(a, b) => {
            if b.index < a.index {
                Node::Or(b, a)
            } else {
                node
            }
        }
        Node::Xor(a, b) => {
            if b.index < a.index {
                Node::Xor(b, a)
            } else {
                node
            }
        }
        Node::Add(a, b) => {
            if b.index < a.index {
                Node::Add(b, a)
            } else {
                node
            }
        }
        Node::Mul(a, b) => {
            if b.index < a.index {
                Node::Mul(b, a)
            } else {
                node
            }
        }
        Node::Eq(a, b) => {
            if b.index < a.index {
                Node::Eq(b, a)
            } else {
                node
            }
        }
        _ => node,
    }
}

// What a node becomes whose operands are in order.
#[tactic(auto, using(crate::proofs::RuleLemmas::in_order), unfolding(crate::specs::Rules::left_side))]
fn reduce(dag: &Dag, bits: u32, node: Node) -> Reduced
    requires width { bits ≡ dag.now.bits }
    requires bits_low { 2 ≤ bits }
    requires bits_high { bits ≤ 32 }
    requires may { MayFollow dag.now.bits dag.now.nodes node }
    requires order { is_swapped node ≡ false }
    ensures { IsReduct dag.now node result }
{
    match node {
        Node::Flag(_) | Node::Word(_) | Node::HoleBit(_, _) | Node::HoleWord(_) => Fresh(node),
        Node::InputBit(_) | Node::InputWord(_) | Node::CostZero => Fresh(node),
        Node::Not(a) => rules::reduce_not(dag, a),
        Node::And(a, b) => rules::reduce_and(dag, a, b),
        Node::Or(a, b) => rules::reduce_or(dag, a, b),
        Node::Xor(a, b) => rules::reduce_xor(dag, a, b),
        Node::BoolMux(c, a, b) => rules::reduce_bool_mux(dag, c, a, b),
        Node::Mux(c, a, b) => rules::reduce_mux(dag, c, a, b),
        Node::Add(a, b) => rules::reduce_add(dag, bits, a, b),
        Node::Sub(a, b) => rules::reduce_sub(dag, bits, a, b),
        Node::Mul(a, b) => rules::reduce_mul(dag, bits, a, b),
        Node::Div(a, b) => rules::reduce_div(dag, bits, a, b),
        Node::Rem(a, b) => rules::reduce_rem(dag, bits, a, b),
        Node::Lt(a, b) => rules::reduce_lt(dag, a, b),
        Node::Eq(a, b) => rules::reduce_eq(dag, a, b),
        Node::CostAdd(cost, when, amount) => rules::reduce_cost_add(dag, cost, when, amount),
        Node::CostLe(cost, limit) => rules::reduce_cost_le(dag, cost, limit),
    }
}

// The number of what a node becomes, in a graph in which no rule fits any node.
fn place(new: &mut Dag, node: Node) -> Result<usize, AllocError>
    requires may { MayFollow new.old.bits new.old.nodes node }
    requires simple { IsSimple new.old }
    ensures simple { IsSimple new.new }
    ensures keeps { Keeps new.old new.new }
    ensures worth { IfOk result (λ i. IsWorth new.new node i) }
    ensures only { IfOk result (λ i. AddsAtMost true new.old new.new i) }
{
    let bits = new.int_bits();
    match reduce(new, bits, ordered(node)) {
        Known(i) => Ok(i),
        Fresh(other) => {
            let i = new.intern(other)?;
            Ok(i)
        }
    }
}

/// The number of what a node becomes over these numbers, where it is wanted.
pub(crate) fn place_wanted(
    new: &mut Dag,
    wanted: bool,
    node: Node,
    numbers: &[usize],
) -> Result<usize, AllocError>
    requires within { Each (λ c. c < length numbers.now) (children node) }
    requires follows { IsTrue wanted → MayFollow new.old.bits new.old.nodes (renumbered numbers.now node) }
    requires simple { IsSimple new.old }
    ensures simple { IsSimple new.new }
    ensures keeps { Keeps new.old new.new }
    ensures placed { IsTrue wanted → IfOk result (λ i. IsWorth new.new (renumbered numbers.now node) i) }
    ensures only { IfOk result (λ i. AddsAtMost wanted new.old new.new i) }
{
    if !wanted {
        return Ok(0);
    }
    let i = place(new, node.renumbered(numbers))?;
    Ok(i)
}
