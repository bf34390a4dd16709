//! Graphs from lists of nodes, by the makers. That a node fits is tested before it is made, so that
//! the tables may hold any nodes.

ghost use Rattle.std.specs.Prelude.{OnOk};
ghost use Rattle.sk_dag.specs.Graph.{HasBool, HasWord, HasCost};

use row_tables::{Fault, expect, has_bool, has_cost, has_word, is_word};
use sk_base::List;
use sk_dag::{BoolId, CostId, Dag, Env, Node, Value, WordId};
use std::alloc::{AllocError, Global};

// Both are truth values of the graph.
fn need_bools(dag: &Dag, a: BoolId, b: BoolId) -> Result<(), Fault>
    ensures a { OnOk result (HasBool dag.now.nodes a) }
    ensures b { OnOk result (HasBool dag.now.nodes b) }
{
    expect(has_bool(dag, a))?;
    expect(has_bool(dag, b))
}

// Both are words of the graph.
fn need_words(dag: &Dag, a: WordId, b: WordId) -> Result<(), Fault>
    ensures a { OnOk result (HasWord dag.now.nodes a) }
    ensures b { OnOk result (HasWord dag.now.nodes b) }
{
    expect(has_word(dag, a))?;
    expect(has_word(dag, b))
}

fn need_cost(dag: &Dag, a: CostId) -> Result<(), Fault>
    ensures { OnOk result (HasCost dag.now.nodes a) }
{
    expect(has_cost(dag, a))
}

fn make_leaf(dag: &mut Dag, node: Node) -> Result<usize, Fault> {
    let index = match node {
        Node::Flag(value) => dag.flag(value)?.index,
        Node::Word(number) => {
            expect(is_word(dag.int_bits(), number))?;
            dag.word(number)?.index
        }
        Node::HoleBit(site, k) => dag.hole_bit(site, k)?.index,
        Node::HoleWord(site) => dag.hole_word(site)?.index,
        Node::InputBit(scalar) => dag.input_bit(scalar)?.index,
        Node::InputWord(scalar) => dag.input_word(scalar)?.index,
        _ => dag.cost_zero()?.index,
    };
    Ok(index)
}

fn make_truth(dag: &mut Dag, node: Node, a: BoolId, b: BoolId) -> Result<usize, Fault> {
    need_bools(dag, a, b)?;
    let made = match node {
        Node::And(_, _) => dag.and(a, b)?,
        Node::Or(_, _) => dag.or(a, b)?,
        Node::Xor(_, _) => dag.xor(a, b)?,
        _ => dag.not(a)?,
    };
    Ok(made.index)
}

fn make_word(dag: &mut Dag, node: Node, a: WordId, b: WordId) -> Result<usize, Fault> {
    need_words(dag, a, b)?;
    let made = match node {
        Node::Add(_, _) => dag.add(a, b)?,
        Node::Sub(_, _) => dag.sub(a, b)?,
        Node::Mul(_, _) => dag.mul(a, b)?,
        Node::Div(_, _) => dag.div(a, b)?,
        _ => dag.rem(a, b)?,
    };
    Ok(made.index)
}

fn make_comparison(dag: &mut Dag, node: Node, a: WordId, b: WordId) -> Result<usize, Fault> {
    need_words(dag, a, b)?;
    let made = match node {
        Node::Lt(_, _) => dag.lt(a, b)?,
        _ => dag.eq(a, b)?,
    };
    Ok(made.index)
}

/// The number of a node, by the maker that it is named after. It has to fit the graph.
pub fn put(dag: &mut Dag, node: Node) -> Result<usize, Fault> {
    let index = match node {
        Node::Not(a) => make_truth(dag, node, a, a)?,
        Node::And(a, b) | Node::Or(a, b) | Node::Xor(a, b) => make_truth(dag, node, a, b)?,
        Node::Add(a, b) | Node::Sub(a, b) | Node::Mul(a, b) => make_word(dag, node, a, b)?,
        Node::Div(a, b) | Node::Rem(a, b) => make_word(dag, node, a, b)?,
        Node::Lt(a, b) | Node::Eq(a, b) => make_comparison(dag, node, a, b)?,
        Node::BoolMux(c, a, b) => {
            need_bools(dag, c, c)?;
            need_bools(dag, a, b)?;
            dag.bool_mux(c, a, b)?.index
        }
        Node::Mux(c, a, b) => {
            need_bools(dag, c, c)?;
            need_words(dag, a, b)?;
            dag.mux(c, a, b)?.index
        }
        Node::CostAdd(cost, when, amount) => {
            need_cost(dag, cost)?;
            need_bools(dag, when, when)?;
            need_words(dag, amount, amount)?;
            dag.cost_add(cost, when, amount)?.index
        }
        Node::CostLe(cost, limit) => {
            need_cost(dag, cost)?;
            dag.cost_le(cost, limit)?.index
        }
        _ => make_leaf(dag, node)?,
    };
    Ok(index)
}

/// The value of a node, by the evaluator of its sort.
pub fn value(dag: &Dag, index: usize, env: &Env) -> Result<Value, Fault> {
    if has_bool(dag, BoolId { index }) {
        return Ok(Value::Bit(dag.eval_bool(BoolId { index }, env)?));
    }
    if has_word(dag, WordId { index }) {
        return Ok(Value::Int(dag.eval_word(WordId { index }, env)?));
    }
    need_cost(dag, CostId { index })?;
    Ok(Value::Cost(dag.eval_cost(CostId { index }, env)?))
}

/// A node has this value.
pub fn expect_value(dag: &mut Dag, env: &Env, node: Node, wanted: Value) -> Result<(), Fault> {
    let index = put(dag, node)?;
    let found = value(dag, index, env)?;
    expect(found == wanted)
}

/// An environment.
pub fn env_of(alloc: Global, choice: &[u64], input: &[i64]) -> Result<Env, AllocError> {
    Ok(Env {
        choice: List::from_slice(alloc, choice)?,
        input: List::from_slice(alloc, input)?,
    })
}

fn put_each(dag: &mut Dag, nodes: &[Node]) -> Result<(), Fault> {
    for node in nodes {
        put(dag, *node)?;
    }
    Ok(())
}

/// The graph of these nodes, in their order.
pub fn graph_of(alloc: Global, bits: u32, nodes: &[Node]) -> Result<Dag, Fault> {
    expect(bits >= 2 && bits <= 32)?;
    let mut dag = Dag::new(alloc, bits);
    put_each(&mut dag, nodes)?;
    Ok(dag)
}
