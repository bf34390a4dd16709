//! The operators of words, at the edges of several widths.

use crate::building::{env_of, expect_value, graph_of};
use row_tables::{Fault, Report};
use sk_dag::{Dag, Env, Node, Value, WordId};
use std::alloc::{AllocError, Global};

const X: WordId = WordId { index: 0 };

const Y: WordId = WordId { index: 1 };

/// The operator of a column of the table.
pub fn operator(column: usize, x: WordId, y: WordId) -> Node {
    match column {
        0 => Node::Add(x, y),
        1 => Node::Sub(x, y),
        2 => Node::Mul(x, y),
        3 => Node::Div(x, y),
        _ => Node::Rem(x, y),
    }
}

/// A width, two words, and their sum, difference, product, quotient and remainder at that width.
/// The numbers are Python's: with its whole numbers q = abs(x) // abs(y), negated where the signs
/// differ, and the remainder x - y * q, both 0 where y is 0; each then wrapped by n % 2**W, less
/// 2**W from 2**(W-1) on.
const WORDS: &[(u32, i64, i64, [i64; 5])] = &[
    (2, 1, 1, [-2, 0, 1, 1, 0]),
    (2, -2, -1, [1, -1, -2, -2, 0]),
    (2, -2, 1, [-1, 1, -2, -2, 0]),
    (2, -1, 0, [-1, -1, 0, 0, 0]),
    (3, 3, 1, [-4, 2, 3, 3, 0]),
    (3, -4, -1, [3, -3, -4, -4, 0]),
    (3, 3, 3, [-2, 0, 1, 1, 0]),
    (3, -4, 3, [-1, 1, -4, -1, -1]),
    (3, -1, 0, [-1, -1, 0, 0, 0]),
    (3, -3, 2, [-1, 3, 2, -1, -1]),
    (3, 3, -2, [1, -3, 2, -1, 1]),
    (6, 31, 1, [-32, 30, 31, 31, 0]),
    (6, -32, -1, [31, -31, -32, -32, 0]),
    (6, 31, 31, [-2, 0, 1, 1, 0]),
    (6, -32, 31, [-1, 1, -32, -1, -1]),
    (6, -1, 0, [-1, -1, 0, 0, 0]),
    (6, -3, 2, [-1, -5, -6, -1, -1]),
    (6, 3, -2, [1, 5, -6, -1, 1]),
    (6, -29, -8, [27, -21, -24, 3, -5]),
    (6, 8, 8, [16, 0, 0, 1, 0]),
    (16, 32767, 1, [-32768, 32766, 32767, 32767, 0]),
    (16, -32768, -1, [32767, -32767, -32768, -32768, 0]),
    (16, 32767, 32767, [-2, 0, 1, 1, 0]),
    (16, -32768, 32767, [-1, 1, -32768, -1, -1]),
    (16, -1, 0, [-1, -1, 0, 0, 0]),
    (16, -3, 2, [-1, -5, -6, -1, -1]),
    (16, 3, -2, [1, 5, -6, -1, 1]),
    (16, -29, -8, [-37, -21, 232, 3, -5]),
    (16, 8, 8, [16, 0, 64, 1, 0]),
    (
        31,
        1073741823,
        1,
        [-1073741824, 1073741822, 1073741823, 1073741823, 0],
    ),
    (
        31,
        -1073741824,
        -1,
        [1073741823, -1073741823, -1073741824, -1073741824, 0],
    ),
    (24, 8388607, 1, [-8388608, 8388606, 8388607, 8388607, 0]),
    (24, -8388608, -1, [8388607, -8388607, -8388608, -8388608, 0]),
    (24, 8388607, 8388607, [-2, 0, 1, 1, 0]),
    (24, -8388608, 8388607, [-1, 1, -8388608, -1, -1]),
    (24, -1, 0, [-1, -1, 0, 0, 0]),
    (24, -29, -8, [-37, -21, 232, 3, -5]),
    (
        24,
        1234567,
        -7654321,
        [-6419754, -7888328, -5202007, 0, 1234567],
    ),
    (31, 1073741823, 1073741823, [-2, 0, 1, 1, 0]),
    (31, -1073741824, 1073741823, [-1, 1, -1073741824, -1, -1]),
    (31, -1, 0, [-1, -1, 0, 0, 0]),
    (31, -3, 2, [-1, -5, -6, -1, -1]),
    (31, 3, -2, [1, 5, -6, -1, 1]),
    (31, -29, -8, [-37, -21, 232, 3, -5]),
    (31, 8, 8, [16, 0, 64, 1, 0]),
    (
        31,
        123456789,
        -987654321,
        [-864197532, -1036372538, 67153019, 0, 123456789],
    ),
    (
        32,
        2147483647,
        1,
        [-2147483648, 2147483646, 2147483647, 2147483647, 0],
    ),
    (
        32,
        -2147483648,
        -1,
        [2147483647, -2147483647, -2147483648, -2147483648, 0],
    ),
    (32, 2147483647, 2147483647, [-2, 0, 1, 1, 0]),
    (32, -2147483648, 2147483647, [-1, 1, -2147483648, -1, -1]),
    (32, -1, 0, [-1, -1, 0, 0, 0]),
    (32, -3, 2, [-1, -5, -6, -1, -1]),
    (32, 3, -2, [1, 5, -6, -1, 1]),
    (32, -29, -8, [-37, -21, 232, 3, -5]),
    (32, 8, 8, [16, 0, 64, 1, 0]),
    (
        32,
        123456789,
        -987654321,
        [-864197532, 1111111110, 67153019, 0, 123456789],
    ),
];

/// The table. Proofs see no row of it.
pub fn words() -> &'static [(u32, i64, i64, [i64; 5])] {
    WORDS
}

fn are_at_the_edge(
    dag: &mut Dag,
    env: &Env,
    x: i64,
    y: i64,
    wanted: &[i64; 5],
) -> Result<(), Fault> {
    for i in 0..5 {
        expect_value(dag, env, operator(i, X, Y), Value::Int(wanted[i]))?;
    }
    expect_value(dag, env, Node::Lt(X, Y), Value::Bit(x < y))?;
    expect_value(dag, env, Node::Eq(X, Y), Value::Bit(x == y))
}

fn is_at_the_edge(
    alloc: Global,
    bits: u32,
    x: i64,
    y: i64,
    wanted: &[i64; 5],
) -> Result<(), Fault> {
    let env = env_of(alloc, &[], &[x, y])?;
    let mut dag = graph_of(alloc, bits, &[Node::InputWord(0), Node::InputWord(1)])?;
    are_at_the_edge(&mut dag, &env, x, y, wanted)
}

/// Tells of the table of words.
pub fn tell(alloc: Global, report: &mut Report) -> Result<(), AllocError> {
    for (bits, x, y, wanted) in words() {
        report.row(is_at_the_edge(alloc, *bits, *x, *y, wanted))?;
    }
    report.end("words at the edges")
}
