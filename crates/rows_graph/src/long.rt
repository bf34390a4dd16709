//! Chains of 100,000 nodes.
use crate::building::{env_of, graph_of, put, value};
use row_tables::{Fault, Report, expect, has_bool, has_word};
use sk_dag::{BoolId, CostId, Dag, Node, Value, WordId};
use sk_simplify::simplify;
use std::alloc::{AllocError, Global};

const LENGTH: usize = 100_000;

// x, y, and x with y added again and again: the sum is x + 99,998 * y.
fn add_sums(dag: &mut Dag) -> Result<(), Fault> {
    let mut last = 0;
    for _ in 2..LENGTH {
        let sum = Node::Add(WordId { index: last }, WordId { index: 1 });
        last = put(dag, sum)?;
    }
    Ok(())
}

fn sums(alloc: Global) -> Result<Dag, Fault> {
    let mut dag = graph_of(alloc, 32, &[Node::InputWord(0), Node::InputWord(1)])?;
    add_sums(&mut dag)?;
    Ok(dag)
}

fn is_long_sum(alloc: Global, dag: &Dag) -> Result<(), Fault> {
    expect(dag.len() == LENGTH)?;
    let sum = WordId { index: LENGTH - 1 };
    expect(has_word(dag, sum))?;
    let env = env_of(alloc, &[], &[3, -2])?;
    let found = dag.eval_word(sum, &env)?;
    expect(found == 3 - 2 * 99_998)
}

fn a_long_sum(alloc: Global) -> Result<(), Fault> {
    let dag = sums(alloc)?;
    is_long_sum(alloc, &dag)
}

// A few nodes behind the chain, none of which stands on it, with the values that x = 3, y = -2 and a hole of value 2 give.
fn behind() -> [(Node, Value); 11] {
    let word = |k: usize| WordId { index: LENGTH + k };
    let truth = |k: usize| BoolId { index: LENGTH + k };
    let x = WordId { index: 0 };
    let y = WordId { index: 1 };
    [
        (Node::Mul(x, y), Value::Int(-6)),
        (Node::Lt(word(0), y), Value::Bit(true)),
        (Node::HoleBit(0, 1), Value::Bit(true)),
        (Node::And(truth(1), truth(2)), Value::Bit(true)),
        (Node::Mux(truth(3), word(0), x), Value::Int(-6)),
        (Node::Sub(word(4), word(0)), Value::Int(0)),
        (Node::Not(truth(3)), Value::Bit(false)),
        (Node::CostZero, Value::Cost(0)),
        (
            Node::CostAdd(CostId { index: LENGTH + 7 }, truth(3), x),
            Value::Cost(3),
        ),
        (
            Node::CostLe(CostId { index: LENGTH + 8 }, 2),
            Value::Bit(false),
        ),
        (
            Node::BoolMux(truth(9), truth(6), truth(1)),
            Value::Bit(true),
        ),
    ]
}

fn put_all(dag: &mut Dag, few: &[(Node, Value)]) -> Result<(), Fault> {
    for (node, _) in few {
        put(dag, *node)?;
    }
    Ok(())
}

fn are_worth(alloc: Global, dag: &Dag, few: &[(Node, Value)]) -> Result<(), Fault> {
    let env = env_of(alloc, &[2], &[3, -2])?;
    let mut index = LENGTH;
    for (_, wanted) in few {
        let found = value(dag, index, &env)?;
        expect(found == *wanted)?;
        index = index.saturating_add(1);
    }
    Ok(())
}

fn a_few_nodes_of_a_long_graph(alloc: Global) -> Result<(), Fault> {
    let mut dag = sums(alloc)?;
    let few = behind();
    put_all(&mut dag, &few)?;
    are_worth(alloc, &dag, &few)
}

// A copy is as long, and its root has the same number.
fn is_copied(copy: &mut Dag, dag: &Dag, root: BoolId) -> Result<(), Fault> {
    expect(dag.int_bits() == copy.int_bits() && has_bool(dag, root))?;
    let copied = copy.graft(dag, root)?;
    expect(copied == root)?;
    expect(copy.len() == LENGTH + 1)
}

fn is_copied_anew(alloc: Global, dag: &Dag, root: BoolId) -> Result<(), Fault> {
    let mut copy = Dag::new(alloc, 32);
    is_copied(&mut copy, dag, root)
}

// The chain is simple but for the order of operands, and stays as long.
fn is_simple(alloc: Global, dag: &Dag, root: BoolId) -> Result<(), Fault> {
    expect(has_bool(dag, root))?;
    let made = simplify(alloc, dag, &[root])?;
    expect(made.dag.len() == LENGTH + 1)
}

fn compare_sum(dag: &mut Dag) -> Result<BoolId, Fault> {
    let sum = WordId { index: LENGTH - 1 };
    let index = put(dag, Node::Lt(sum, WordId { index: 0 }))?;
    Ok(BoolId { index })
}

fn a_long_sum_anew(alloc: Global) -> Result<(), Fault> {
    let mut dag = sums(alloc)?;
    let root = compare_sum(&mut dag)?;
    is_simple(alloc, &dag, root)?;
    is_copied_anew(alloc, &dag, root)
}

/// Tells of the table of long graphs.
pub fn tell(alloc: Global, report: &mut Report) -> Result<(), AllocError> {
    report.row(a_long_sum(alloc))?;
    report.row(a_few_nodes_of_a_long_graph(alloc))?;
    report.row(a_long_sum_anew(alloc))?;
    report.end("graphs of 100,000 nodes")
}
