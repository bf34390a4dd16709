//! Each maker and each evaluator, with ample memory.

use crate::building::{env_of, expect_value, put};
use row_tables::{Fault, Report, expect};
use sk_dag::{BoolId, CostId, Dag, Env, Node, Value, WordId};
use std::alloc::{AllocError, Global};

const YES: BoolId = BoolId { index: 0 };

const NO: BoolId = BoolId { index: 1 };

const MOST: WordId = WordId { index: 2 };

const X: WordId = WordId { index: 3 };

const Y: WordId = WordId { index: 4 };

const LESS: WordId = WordId { index: 5 };

const FREE: CostId = CostId { index: 6 };

const COST: CostId = CostId { index: 7 };

// The nodes of a graph of 6 bits, and the value of each where the holes are 13, which is 1101 in
// binary, and 2^64 - 1, and the scalars of the input -7 and 2.
const NODES: &[(Node, Value)] = &[
    (Node::Flag(true), Value::Bit(true)),
    (Node::Flag(false), Value::Bit(false)),
    (Node::Word(31), Value::Int(31)),
    (Node::InputWord(0), Value::Int(-7)),
    (Node::InputWord(1), Value::Int(2)),
    (Node::Sub(X, Y), Value::Int(-9)),
    (Node::CostZero, Value::Cost(0)),
    (Node::CostAdd(FREE, YES, MOST), Value::Cost(31)),
    // What is missing counts as 0, and a hole has 64 bits.
    (Node::HoleBit(0, 0), Value::Bit(true)),
    (Node::HoleBit(0, 1), Value::Bit(false)),
    (Node::HoleBit(0, 64), Value::Bit(false)),
    (Node::HoleBit(1, 63), Value::Bit(true)),
    (Node::HoleBit(2, 0), Value::Bit(false)),
    (Node::HoleWord(0), Value::Int(13)),
    (Node::HoleWord(1), Value::Int(-1)),
    (Node::HoleWord(2), Value::Int(0)),
    (Node::InputBit(0), Value::Bit(true)),
    (Node::InputBit(2), Value::Bit(false)),
    (Node::InputWord(2), Value::Int(0)),
    (Node::Not(YES), Value::Bit(false)),
    (Node::And(YES, NO), Value::Bit(false)),
    (Node::Or(YES, NO), Value::Bit(true)),
    (Node::Xor(YES, NO), Value::Bit(true)),
    (Node::Xor(YES, YES), Value::Bit(false)),
    (Node::BoolMux(YES, NO, YES), Value::Bit(false)),
    (Node::BoolMux(NO, NO, YES), Value::Bit(true)),
    (Node::Mux(YES, X, Y), Value::Int(-7)),
    (Node::Mux(NO, X, Y), Value::Int(2)),
    // 33, -217 and -4.5, wrapped or cut.
    (Node::Add(MOST, Y), Value::Int(-31)),
    (Node::Mul(X, MOST), Value::Int(-25)),
    (Node::Div(LESS, Y), Value::Int(-4)),
    (Node::Rem(LESS, Y), Value::Int(-1)),
    (Node::Lt(X, Y), Value::Bit(true)),
    (Node::Lt(Y, X), Value::Bit(false)),
    (Node::Eq(X, Y), Value::Bit(false)),
    // Only what is above 0 is added, and only where it is to be.
    (Node::CostAdd(COST, YES, X), Value::Cost(31)),
    (Node::CostAdd(COST, NO, MOST), Value::Cost(31)),
    (Node::CostAdd(COST, YES, Y), Value::Cost(33)),
    (Node::CostLe(COST, 30), Value::Bit(false)),
    (Node::CostLe(COST, 31), Value::Bit(true)),
];

// The table. Proofs see no row of it.
fn nodes() -> &'static [(Node, Value)] {
    NODES
}

/// The value of each node, and that they are as many as they are different.
fn try_makers(dag: &mut Dag, env: &Env, report: &mut Report) -> Result<(), AllocError> {
    for (node, wanted) in nodes() {
        report.row(expect_value(dag, env, *node, *wanted))?;
    }
    report.row(expect(dag.len() == 40))?;
    report.end("makers of nodes")
}

fn tell_makers(alloc: Global, report: &mut Report) -> Result<(), AllocError> {
    let env = env_of(alloc, &[13, u64::MAX], &[-7, 2])?;
    let mut dag = Dag::new(alloc, 6);
    try_makers(&mut dag, &env, report)
}

fn put_all(dag: &mut Dag) -> Result<(), Fault> {
    for (node, _) in nodes() {
        put(dag, *node)?;
    }
    Ok(())
}

// An equal node is the old one.
fn are_old(dag: &mut Dag) -> Result<(), Fault> {
    let mut i = 0usize;
    for (node, _) in nodes() {
        let index = put(dag, *node)?;
        expect(index == i)?;
        i = i.saturating_add(1);
    }
    expect(dag.len() == 40)
}

fn each_node_once(alloc: Global) -> Result<(), Fault> {
    let mut dag = Dag::new(alloc, 6);
    put_all(&mut dag)?;
    are_old(&mut dag)
}

/// Tells of the tables of makers.
pub fn tell(alloc: Global, report: &mut Report) -> Result<(), AllocError> {
    tell_makers(alloc, report)?;
    report.row(each_node_once(alloc))?;
    report.end("each node once")
}
