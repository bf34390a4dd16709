//! The values of the nodes.

ghost use Rattle.std.specs.Prelude.{◌≡◌, ◌≤◌, ℕ, List, IfOk};
ghost use Rattle.sk_dag.specs.declared.value.Value.{Value};
ghost use Rattle.sk_dag.specs.Word.{IsMachineWord};
ghost use Rattle.sk_dag.specs.Graph.{IsWellFormed};
ghost use Rattle.sk_dag.specs.Eval.{value_of as node_value, values as node_values, value_at, as_bool, as_word, as_cost, charge as charged};
ghost use Rattle.sk_dag.specs.Reach.{children, Each};

use crate::env::Env;
use crate::node::{BoolId, CostId, Node, WordId};
use crate::value::Value;
use crate::values::Values;
use crate::word;
use sk_base::wrap;
use std::alloc::{AllocError, Global};

fn charge(cost: u64, when: bool, amount: i64) -> u64
    ensures { result ≡ charged cost when amount }
{
    if when && amount > 0 {
        cost.saturating_add(amount as u64)
    } else {
        cost
    }
}

fn bool_at<V: Values>(values: &V, a: BoolId) -> bool
    ensures { result ≡ as_bool (V.value_for values.now a.index) }
{
    match values.value(a.index) {
        Value::Bit(bit) => bit,
        _ => false,
    }
}

fn word_at<V: Values>(values: &V, a: WordId) -> i64
    requires { (i : ℕ) → IsMachineWord (as_word (V.value_for values.now i)) }
    ensures value { result ≡ as_word (V.value_for values.now a.index) }
    ensures word { IsMachineWord result }
{
    match values.value(a.index) {
        Value::Int(number) => number,
        _ => 0,
    }
}

fn cost_at<V: Values>(values: &V, a: CostId) -> u64
    ensures { result ≡ as_cost (V.value_for values.now a.index) }
{
    match values.value(a.index) {
        Value::Cost(cost) => cost,
        _ => 0,
    }
}

// The value of a node, from those of its children.
#[tactic(auto, unfolding(crate::specs::Eval::value_of))]
pub(crate) fn value_of<V: Values>(node: Node, bits: u32, values: &V, env: &Env) -> Value
    requires bits_low { 2 ≤ bits }
    requires bits_high { bits ≤ 32 }
    requires words { (i : ℕ) → IsMachineWord (as_word (V.value_for values.now i)) }
    ensures { (vs : List Value) → Each (λ i. V.value_for values.now i ≡ value_at vs i) (children node) → result ≡ node_value bits env.now vs node }
{
    match node {
        Node::Flag(b) => Value::Bit(b),
        Node::Word(number) => Value::Int(number),
        Node::HoleBit(site, k) => Value::Bit(k < 64 && env.choice_at(site) >> k & 1 == 1),
        Node::HoleWord(site) => Value::Int(word::wrap_unsigned(bits, env.choice_at(site))),
        Node::InputBit(scalar) => Value::Bit(env.input_at(scalar) != 0),
        Node::InputWord(scalar) => Value::Int(wrap(bits, env.input_at(scalar))),
        Node::Not(a) => Value::Bit(!bool_at(values, a)),
        Node::And(a, b) => Value::Bit(bool_at(values, a) && bool_at(values, b)),
        Node::Or(a, b) => Value::Bit(bool_at(values, a) || bool_at(values, b)),
        Node::Xor(a, b) => Value::Bit(if bool_at(values, a) {
            !bool_at(values, b)
        } else {
            bool_at(values, b)
        }),
        Node::BoolMux(c, a, b) => Value::Bit(if bool_at(values, c) {
            bool_at(values, a)
        } else {
            bool_at(values, b)
        }),
        Node::Mux(c, a, b) => Value::Int(if bool_at(values, c) {
            word_at(values, a)
        } else {
            word_at(values, b)
        }),
        Node::Add(a, b) => Value::Int(word::sum(bits, word_at(values, a), word_at(values, b))),
        Node::Sub(a, b) => Value::Int(word::difference(
            bits,
            word_at(values, a),
            word_at(values, b),
        )),
        Node::Mul(a, b) => Value::Int(word::product(bits, word_at(values, a), word_at(values, b))),
        Node::Div(a, b) => Value::Int(word::quotient(bits, word_at(values, a), word_at(values, b))),
        Node::Rem(a, b) => Value::Int(word::remainder(
            bits,
            word_at(values, a),
            word_at(values, b),
        )),
        Node::Lt(a, b) => Value::Bit(word_at(values, a) < word_at(values, b)),
        Node::Eq(a, b) => Value::Bit(word_at(values, a) == word_at(values, b)),
        Node::CostZero => Value::Cost(0),
        Node::CostAdd(cost, when, amount) => Value::Cost(charge(
            cost_at(values, cost),
            bool_at(values, when),
            word_at(values, amount),
        )),
        Node::CostLe(cost, limit) => Value::Bit(cost_at(values, cost) <= limit),
    }
}

// The values of the nodes, from the children up.
pub(crate) fn values_of(
    alloc: Global,
    bits: u32,
    nodes: &[Node],
    env: &Env,
) -> Result<Vec<Value>, AllocError>
    requires { IsWellFormed bits nodes.now }
    ensures { IfOk result (λ vs. vs.items ≡ node_values bits env.now nodes.now) }
{
    let mut values = Vec::with_capacity(alloc, nodes.len())?;
    for node in nodes {
        let value = value_of(*node, bits, &values, env);
        values.push(value)?;
    }
    Ok(values)
}
