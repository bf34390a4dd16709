//! Rows: a call, its arguments as plain data, and how many nodes it adds at most. Each row has a graph of its own.

use crate::calls::{Answer, Args, Call, answer, given, graph};
use crate::kinds::{Kind, element, elements, one};
use crate::wants::expect_try;
use row_tables::{Fault, expect};
use sk_base::List;
use sk_dag::{BoolId, Dag, Shape, WordId};
use std::alloc::{AllocError, Global};

/// A truth value that is given, or whether a scalar is not 0.
#[derive(Clone, Copy)]
pub enum Guard {
    Given(bool),
    Input(u32),
}

/// A word that is given, or a scalar.
#[derive(Clone, Copy)]
pub enum Index {
    Given(i64),
    Input(u32),
}

/// A call on so many elements of a kind, by the scalars from 0 on.
#[derive(Clone, Copy)]
pub struct Row {
    pub call: Call,
    pub kind: Kind,
    pub count: u32,
    pub guard: Guard,
    pub index: Index,
    /// How many nodes the call adds at most.
    pub most: usize,
}

/// The numbers that an environment is made of: the scalars of both shapes and of the guard; an index, and the scalar of a
/// guard; two numbers of bits, or one and a count, and their sum, or the bits moved.
pub type Try = [i64; 3];

// The bits of a number, which is given.
fn given_bits(
    alloc: Global,
    dag: &mut Dag,
    number: i64,
    count: u32,
) -> Result<List<Shape>, AllocError> {
    let mut rest = number;
    let mut made = List::new(alloc);
    for _ in 0..count {
        let bit = dag.flag(rest & 1 == 1)?;
        made.push(Shape::Bit(bit))?;
        rest = rest >> 1;
    }
    Ok(made)
}

// Shapes by scalars 0 and 1, which refer to these slots.
fn two(
    alloc: Global,
    dag: &mut Dag,
    kind: Kind,
    first: u32,
    second: u32,
) -> Result<List<Shape>, AllocError> {
    let mut made = one(alloc, dag, kind, first, 0)?;
    let other = element(alloc, dag, kind, second, 1)?;
    made.push(other)?;
    Ok(made)
}

fn list_of(alloc: Global, dag: &mut Dag, row: &Row) -> Result<List<Shape>, AllocError> {
    match row.call {
        Call::Same(a, _) if row.count == 1 => one(alloc, dag, row.kind, a, 0),
        Call::Same(a, b) => two(alloc, dag, row.kind, a, b),
        Call::Sum(Some(number), _) => given_bits(alloc, dag, number, row.count),
        _ => elements(alloc, dag, row.kind, 0, row.count),
    }
}

// The value of a write and what a list is padded with are by scalar 5. A second number has the scalars behind the first.
fn more_of(alloc: Global, dag: &mut Dag, row: &Row) -> Result<List<Shape>, AllocError> {
    match row.call {
        Call::Write | Call::Pad(_) => one(alloc, dag, row.kind, 5, 5),
        Call::Sum(_, Some(number)) => given_bits(alloc, dag, number, row.count),
        Call::Sum(_, None) => elements(alloc, dag, row.kind, row.count, row.count),
        _ => Ok(List::new(alloc)),
    }
}

fn guard_of(dag: &mut Dag, guard: Guard) -> Result<BoolId, Fault> {
    match guard {
        Guard::Given(value) => Ok(dag.flag(value)?),
        Guard::Input(scalar) => Ok(dag.input_bit(scalar)?),
    }
}

fn index_of(dag: &mut Dag, index: Index) -> Result<WordId, Fault> {
    match index {
        Index::Given(number) => given(dag, number),
        Index::Input(scalar) => Ok(dag.input_word(scalar)?),
    }
}

// The answer adds so many nodes at most.
fn answer_within(
    alloc: Global,
    dag: &mut Dag,
    call: Call,
    args: Args,
    most: usize,
) -> Result<Answer, Fault> {
    let before = dag.len();
    let made = answer(alloc, dag, call, args)?;
    expect(dag.len().wrapping_sub(before) <= most)?;
    Ok(made)
}

// The answer is right in each environment, and the same once more adds no node.
fn is_right(
    alloc: Global,
    dag: &mut Dag,
    row: &Row,
    tries: &[Try],
    args: Args,
) -> Result<(), Fault> {
    let (made, outside) = answer_within(alloc, dag, row.call, args, row.most)?;
    for it in tries {
        expect_try(alloc, dag, row, it, made.as_slice(), outside)?;
    }
    answer_within(alloc, dag, row.call, args, 0)?;
    Ok(())
}

fn is_right_of(
    alloc: Global,
    dag: &mut Dag,
    row: &Row,
    tries: &[Try],
    list: &List<Shape>,
    more: &List<Shape>,
) -> Result<(), Fault> {
    let guard = guard_of(dag, row.guard)?;
    let index = index_of(dag, row.index)?;
    let args = Args {
        list,
        more,
        guard,
        index,
    };
    is_right(alloc, dag, row, tries, args)
}

fn is_right_in(alloc: Global, dag: &mut Dag, row: &Row, tries: &[Try]) -> Result<(), Fault> {
    let list = list_of(alloc, dag, row)?;
    let more = more_of(alloc, dag, row)?;
    is_right_of(alloc, dag, row, tries, &list, &more)
}

/// Tries a row in a graph of words of so many bits.
pub fn tried(alloc: Global, bits: u32, row: Row, tries: &[Try]) -> Result<(), Fault> {
    let mut dag = graph(alloc, bits)?;
    is_right_in(alloc, &mut dag, &row, tries)
}
