//! Copies of graphs into others.
use crate::building::{env_of, graph_of};
use row_tables::{Fault, Report, expect, has_bool};
use sk_dag::{BoolId, Dag, Node, WordId};
use std::alloc::{AllocError, Global};

// `lt (add x y) x`, and two nodes beside it that the comparison does not stand on.
const NODES: [Node; 6] = [
    Node::InputWord(0),
    Node::HoleWord(3),
    Node::InputWord(1),
    Node::Add(WordId { index: 0 }, WordId { index: 2 }),
    Node::Lt(WordId { index: 3 }, WordId { index: 0 }),
    Node::Not(BoolId { index: 4 }),
];

const ROOT: BoolId = BoolId { index: 4 };

// A copy into an equal graph adds nothing.
fn adds_nothing(dag: &mut Dag, other: &Dag) -> Result<(), Fault> {
    expect(dag.int_bits() == other.int_bits() && has_bool(other, ROOT))?;
    let copy = dag.graft(other, ROOT)?;
    expect(copy == ROOT)?;
    expect(dag.len() == 6)
}

fn copied_into_an_equal_graph(alloc: Global) -> Result<(), Fault> {
    let other = graph_of(alloc, 6, &NODES)?;
    let mut dag = graph_of(alloc, 6, &NODES)?;
    adds_nothing(&mut dag, &other)
}

// A copy into another graph shares what is there, under other numbers, and leaves behind what the
// root does not stand on: 31 + 1 is below 31 at 6 bits.
fn shares(alloc: Global, dag: &mut Dag, other: &Dag) -> Result<(), Fault> {
    expect(dag.int_bits() == other.int_bits() && has_bool(other, ROOT))?;
    let copy = dag.graft(other, ROOT)?;
    expect(dag.len() == 5)?;
    let env = env_of(alloc, &[], &[31, 1])?;
    let below = dag.eval_bool(copy, &env)?;
    expect(below)
}

fn copied_into_another_graph(alloc: Global) -> Result<(), Fault> {
    let other = graph_of(alloc, 6, &NODES)?;
    let mut dag = graph_of(alloc, 6, &[Node::Flag(true), Node::InputWord(1)])?;
    shares(alloc, &mut dag, &other)
}

fn marks_in(dag: &Dag) -> Result<(), Fault> {
    expect(has_bool(dag, ROOT))?;
    let marks = dag.reached(&[ROOT])?;
    expect(marks.as_slice() == [true, false, true, true, true, false].as_slice())
}

fn marks(alloc: Global) -> Result<(), Fault> {
    let dag = graph_of(alloc, 6, &NODES)?;
    marks_in(&dag)
}

/// Tells of the table of copies.
pub fn tell(alloc: Global, report: &mut Report) -> Result<(), AllocError> {
    report.row(copied_into_an_equal_graph(alloc))?;
    report.row(copied_into_another_graph(alloc))?;
    report.row(marks(alloc))?;
    report.end("copies of graphs")
}
