//! What each rule of the simplifier makes of its left side.

use crate::building::{graph_of, put};
use crate::words::{operator, words};
use row_tables::{Fault, Report, expect, has_bool, has_cost, has_word};
use sk_dag::{BoolId, CostId, Dag, Node, WordId};
use sk_simplify::simplify;
use std::alloc::{AllocError, Global};

// The nodes that every row may speak of, under their numbers: no rule fits any of them.
const LEAVES: &[Node] = &[
    Node::Flag(true),
    Node::Flag(false),
    Node::InputBit(0),
    Node::InputBit(1),
    Node::Not(A),
    Node::Word(0),
    Node::Word(1),
    Node::Word(20),
    Node::Word(17),
    Node::InputWord(2),
    Node::InputWord(3),
    Node::CostZero,
    Node::CostAdd(ZERO_COST, A, X),
    Node::HoleBit(0, 3),
    Node::Word(-27),
    Node::Word(3),
];

const T: BoolId = BoolId { index: 0 };

const F: BoolId = BoolId { index: 1 };

const A: BoolId = BoolId { index: 2 };

const B: BoolId = BoolId { index: 3 };

const NOT_A: BoolId = BoolId { index: 4 };

const ZERO: WordId = WordId { index: 5 };

const ONE: WordId = WordId { index: 6 };

const TWENTY: WordId = WordId { index: 7 };

const SEVENTEEN: WordId = WordId { index: 8 };

const X: WordId = WordId { index: 9 };

const Y: WordId = WordId { index: 10 };

const ZERO_COST: CostId = CostId { index: 11 };

const COST: CostId = CostId { index: 12 };

const HOLE: BoolId = BoolId { index: 13 };

// The rules, by their left sides: of a commutative operator with the operands in either order.
const ROWS: &[(Node, Node)] = &[
    // The negation of a flag, and of a negation.
    (Node::Not(T), Node::Flag(false)),
    (Node::Not(F), Node::Flag(true)),
    (Node::Not(NOT_A), Node::InputBit(0)),
    // `and` with a flag, with itself, with its negation.
    (Node::And(F, A), Node::Flag(false)),
    (Node::And(A, F), Node::Flag(false)),
    (Node::And(T, A), Node::InputBit(0)),
    (Node::And(A, T), Node::InputBit(0)),
    (Node::And(A, A), Node::InputBit(0)),
    (Node::And(A, NOT_A), Node::Flag(false)),
    (Node::And(NOT_A, A), Node::Flag(false)),
    // `or` of the same.
    (Node::Or(T, A), Node::Flag(true)),
    (Node::Or(A, T), Node::Flag(true)),
    (Node::Or(F, A), Node::InputBit(0)),
    (Node::Or(A, F), Node::InputBit(0)),
    (Node::Or(A, A), Node::InputBit(0)),
    (Node::Or(A, NOT_A), Node::Flag(true)),
    (Node::Or(NOT_A, A), Node::Flag(true)),
    // `xor` with a flag, with itself.
    (Node::Xor(F, A), Node::InputBit(0)),
    (Node::Xor(A, F), Node::InputBit(0)),
    (Node::Xor(T, A), Node::Not(A)),
    (Node::Xor(A, T), Node::Not(A)),
    (Node::Xor(A, A), Node::Flag(false)),
    // `xor` with t of a negation is what is negated.
    (Node::Xor(NOT_A, T), Node::InputBit(0)),
    // A choice on a flag, and one between equal branches.
    (Node::BoolMux(T, A, B), Node::InputBit(0)),
    (Node::BoolMux(F, A, B), Node::InputBit(1)),
    (Node::BoolMux(HOLE, A, A), Node::InputBit(0)),
    (Node::Mux(T, X, Y), Node::InputWord(2)),
    (Node::Mux(F, X, Y), Node::InputWord(3)),
    (Node::Mux(HOLE, X, X), Node::InputWord(2)),
    // A choice between t and f is its condition.
    (Node::BoolMux(A, T, F), Node::InputBit(0)),
    // Operators over constant words, at 6 bits.
    (Node::Add(TWENTY, SEVENTEEN), Node::Word(-27)),
    (Node::Sub(TWENTY, SEVENTEEN), Node::Word(3)),
    (Node::Mul(TWENTY, SEVENTEEN), Node::Word(20)),
    (Node::Div(TWENTY, SEVENTEEN), Node::Word(1)),
    (Node::Rem(TWENTY, SEVENTEEN), Node::Word(3)),
    (Node::Div(TWENTY, ZERO), Node::Word(0)),
    (Node::Rem(TWENTY, ZERO), Node::Word(0)),
    (Node::Lt(TWENTY, SEVENTEEN), Node::Flag(false)),
    (Node::Lt(SEVENTEEN, TWENTY), Node::Flag(true)),
    (Node::Eq(TWENTY, SEVENTEEN), Node::Flag(false)),
    // 0 added or taken away, and a word less itself.
    (Node::Add(ZERO, X), Node::InputWord(2)),
    (Node::Add(X, ZERO), Node::InputWord(2)),
    (Node::Sub(X, ZERO), Node::InputWord(2)),
    (Node::Sub(X, X), Node::Word(0)),
    // Products with 0 and 1.
    (Node::Mul(ZERO, X), Node::Word(0)),
    (Node::Mul(X, ZERO), Node::Word(0)),
    (Node::Mul(ONE, X), Node::InputWord(2)),
    (Node::Mul(X, ONE), Node::InputWord(2)),
    // A word beside itself.
    (Node::Eq(X, X), Node::Flag(true)),
    (Node::Lt(X, X), Node::Flag(false)),
    // A cost with nothing to add.
    (Node::CostAdd(COST, F, X), Node::CostAdd(ZERO_COST, A, X)),
    (Node::CostAdd(COST, A, ZERO), Node::CostAdd(ZERO_COST, A, X)),
    // A cost of 0 is at most any limit.
    (Node::CostLe(ZERO_COST, 0), Node::Flag(true)),
    (Node::CostLe(ZERO_COST, 7), Node::Flag(true)),
    // Operands in the order of their numbers.
    (Node::And(B, A), Node::And(A, B)),
    (Node::Or(B, A), Node::Or(A, B)),
    (Node::Xor(B, A), Node::Xor(A, B)),
    (Node::Add(Y, X), Node::Add(X, Y)),
    (Node::Mul(Y, X), Node::Mul(X, Y)),
    (Node::Eq(Y, X), Node::Eq(X, Y)),
];

fn leaves() -> &'static [Node] {
    LEAVES
}

// The rows. Proofs see none of them.
fn rows() -> &'static [(Node, Node)] {
    ROWS
}

// A truth value that tells a node from every other: the node itself, or a comparison of it.
fn rooted(dag: &mut Dag, index: usize) -> Result<BoolId, Fault> {
    if has_word(dag, WordId { index }) {
        let other = put(dag, Node::InputWord(9))?;
        let root = put(dag, Node::Lt(WordId { index }, WordId { index: other }))?;
        return Ok(BoolId { index: root });
    }
    if has_cost(dag, CostId { index }) {
        let root = put(dag, Node::CostLe(CostId { index }, 9))?;
        return Ok(BoolId { index: root });
    }
    Ok(BoolId { index })
}

// The root of a node that is put.
fn put_rooted(dag: &mut Dag, node: Node) -> Result<BoolId, Fault> {
    let index = put(dag, node)?;
    rooted(dag, index)
}

// Simplified, both roots are one.
fn become_one(alloc: Global, dag: &Dag, left: BoolId, right: BoolId) -> Result<(), Fault> {
    expect(has_bool(dag, left))?;
    expect(has_bool(dag, right))?;
    let made = simplify(alloc, dag, &[left, right])?;
    let left_made = made.roots.as_slice().get(0);
    let right_made = made.roots.as_slice().get(1);
    expect(left_made.is_some() && left_made == right_made)
}

// Simplifies two nodes of a graph: they become one.
fn expect_one(alloc: Global, dag: &mut Dag, left: Node, right: Node) -> Result<(), Fault> {
    let left_root = put_rooted(dag, left)?;
    let right_root = put_rooted(dag, right)?;
    become_one(alloc, dag, left_root, right_root)
}

fn is_left_side(alloc: Global, left: Node, right: Node) -> Result<(), Fault> {
    let mut dag = graph_of(alloc, 6, leaves())?;
    expect_one(alloc, &mut dag, left, right)
}

// An operator over two words that are given becomes this word.
fn folds_in(alloc: Global, dag: &mut Dag, column: usize, y: i64, wanted: i64) -> Result<(), Fault> {
    let second = put(dag, Node::Word(y))?;
    let left = operator(column, WordId { index: 0 }, WordId { index: second });
    expect_one(alloc, dag, left, Node::Word(wanted))
}

fn folds(
    alloc: Global,
    bits: u32,
    column: usize,
    x: i64,
    y: i64,
    wanted: i64,
) -> Result<(), Fault> {
    let mut dag = graph_of(alloc, bits, &[Node::Word(x)])?;
    folds_in(alloc, &mut dag, column, y, wanted)
}

// A row of the table of words again, over constants.
fn is_folded(alloc: Global, bits: u32, x: i64, y: i64, wanted: &[i64; 5]) -> Result<(), Fault> {
    for i in 0..5 {
        folds(alloc, bits, i, x, y, wanted[i])?;
    }
    Ok(())
}

// Rules over what rules have made: the last node of each graph.
const NESTED: &[(&[Node], Node)] = &[
    // `eq (mul 8 8) 0` at 6 bits.
    (
        &[
            Node::Word(8),
            Node::Mul(WordId { index: 0 }, WordId { index: 0 }),
            Node::Word(0),
            Node::Eq(WordId { index: 1 }, WordId { index: 2 }),
        ],
        Node::Flag(true),
    ),
    // `not (xor t a)`.
    (
        &[
            Node::Flag(true),
            Node::InputBit(0),
            Node::Xor(BoolId { index: 0 }, BoolId { index: 1 }),
            Node::Not(BoolId { index: 2 }),
        ],
        Node::InputBit(0),
    ),
    // `lt (mul 1 (add 0 a)) a`.
    (
        &[
            Node::InputWord(0),
            Node::Word(0),
            Node::Add(WordId { index: 1 }, WordId { index: 0 }),
            Node::Word(1),
            Node::Mul(WordId { index: 3 }, WordId { index: 2 }),
            Node::Lt(WordId { index: 4 }, WordId { index: 0 }),
        ],
        Node::Flag(false),
    ),
    // `cost_le (cost_add cost_zero f a) 5`.
    (
        &[
            Node::CostZero,
            Node::Flag(false),
            Node::InputWord(0),
            Node::CostAdd(
                CostId { index: 0 },
                BoolId { index: 1 },
                WordId { index: 2 },
            ),
            Node::CostLe(CostId { index: 3 }, 5),
        ],
        Node::Flag(true),
    ),
];

fn nested() -> &'static [(&'static [Node], Node)] {
    NESTED
}

fn becomes(alloc: Global, dag: &Dag, wanted: Node) -> Result<(), Fault> {
    let root = BoolId {
        index: dag.len().saturating_sub(1),
    };
    expect(has_bool(dag, root))?;
    let made = simplify(alloc, dag, &[root])?;
    let index = made.roots.as_slice().get(0).map_or(0, |id| id.index);
    expect(index < made.dag.len() && *made.dag.node(index) == wanted)
}

fn is_nested(alloc: Global, nodes: &[Node], wanted: Node) -> Result<(), Fault> {
    let dag = graph_of(alloc, 6, nodes)?;
    becomes(alloc, &dag, wanted)
}

/// Tells of the tables of rules.
pub fn tell(alloc: Global, report: &mut Report) -> Result<(), AllocError> {
    for (left, right) in rows() {
        report.row(is_left_side(alloc, *left, *right))?;
    }
    report.end("rules")?;
    for (bits, x, y, wanted) in words() {
        report.row(is_folded(alloc, *bits, *x, *y, wanted))?;
    }
    report.end("words that are folded")?;
    for (nodes, wanted) in nested() {
        report.row(is_nested(alloc, nodes, *wanted))?;
    }
    report.end("rules over rules")
}
