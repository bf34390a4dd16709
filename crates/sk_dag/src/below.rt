//! The value of one node, from those of the nodes below it and of no others.

ghost use Rattle.std.specs.Prelude.{◌≡◌, ◌<◌, ℕ, All, Contains, IfOk, OnOk, IfSome, None, length};
ghost use Rattle.sk_dag.specs.Graph.{IsWellFormed};
ghost use Rattle.sk_dag.specs.Eval.{values as node_values, value_at};
ghost use Rattle.sk_dag.specs.Reach.{children, Each};
ghost use Rattle.sk_dag.specs.Below.{HoldsValues, IsKnown};

use crate::env::Env;
use crate::eval::value_of;
use crate::node::Node;
use crate::table::Table;
use crate::value::Value;
use std::alloc::{AllocError, Global};

// The first child of a node whose value is not there yet.
fn missing(node: Node, table: &Table) -> Option<usize>
    ensures some { IfSome result (Contains (children node)) }
    ensures none { result ≡ None → Each (IsKnown table.now) (children node) }
{
    match node {
        Node::Flag(_) | Node::Word(_) | Node::HoleBit(_, _) | Node::HoleWord(_) => None,
        Node::InputBit(_) | Node::InputWord(_) | Node::CostZero => None,
        Node::Not(a) => table.absent(&[a.index]),
        Node::CostLe(cost, _) => table.absent(&[cost.index]),
        Node::And(a, b) | Node::Or(a, b) | Node::Xor(a, b) => table.absent(&[a.index, b.index]),
        Node::Add(a, b) | Node::Sub(a, b) | Node::Mul(a, b) | Node::Div(a, b) => {
            table.absent(&[a.index, b.index])
        }
        Node::Rem(a, b) | Node::Lt(a, b) | Node::Eq(a, b) => table.absent(&[a.index, b.index]),
        Node::BoolMux(c, a, b) => table.absent(&[c.index, a.index, b.index]),
        Node::Mux(c, a, b) => table.absent(&[c.index, a.index, b.index]),
        Node::CostAdd(cost, when, amount) => {
            table.absent(&[cost.index, when.index, amount.index])
        }
    }
}

// Notes the value of a node, or has it wait again behind its first child whose value is not there.
fn step(
    bits: u32,
    nodes: &[Node],
    env: &Env,
    index: usize,
    table: &mut Table,
    waiting: &mut Vec<usize>,
) -> Result<(), AllocError>
    requires well_formed { IsWellFormed bits nodes.now }
    requires index { index < length nodes.now }
    requires table { HoldsValues table.old (node_values bits env.now nodes.now) }
    requires waiting { All (λ i. i < length nodes.now) waiting.old.items }
    ensures table { OnOk result (HoldsValues table.new (node_values bits env.now nodes.now)) }
    ensures waiting { OnOk result (All (λ i. i < length nodes.now) waiting.new.items) }
{
    let node = nodes[index];
    match missing(node, table) {
        Some(child) => {
            waiting.push(index)?;
            waiting.push(child)?;
            Ok(())
        }
        None => {
            let value = value_of(node, bits, table, env);
            table.insert(index, value)?;
            Ok(())
        }
    }
}

// The value of a node, if it is found in so many steps. It takes one step for each node on which it stands, itself among
// them, and one more for each but the last to be found.
pub(crate) fn value_below(
    alloc: Global,
    bits: u32,
    nodes: &[Node],
    root: usize,
    env: &Env,
    steps: usize,
) -> Result<Option<Value>, AllocError>
    requires well_formed { IsWellFormed bits nodes.now }
    requires root { root < length nodes.now }
    ensures { IfOk result (λ found. IfSome found (λ value. value ≡ value_at (node_values bits env.now nodes.now) root)) }
{
    let mut table = Table::new(alloc);
    let mut waiting = vec![in alloc; root]?;
    for _ in 0..steps {
        match waiting.pop() {
            Some(index) => step(bits, nodes, env, index, &mut table, &mut waiting)?,
            None => break,
        }
    }
    Ok(table.get(root))
}
