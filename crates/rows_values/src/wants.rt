//! What a row wants in an environment.

use crate::calls::Call;
use crate::kinds::push_wanted;
use crate::rows::{Guard, Row, Try};
use crate::sights::{env_of, holds, see_all};
use row_tables::{Fault, expect};
use sk_dag::{BoolId, Dag, Env, Shape};
use std::alloc::{AllocError, Global};

// Adds so many bits of a number.
fn push_bits(input: &mut Vec<i64>, number: i64, count: u32) -> Result<(), AllocError> {
    let mut rest = number;
    for _ in 0..count {
        input.push(rest & 1)?;
        rest = rest >> 1;
    }
    Ok(())
}

// The scalars: those of both shapes and of a guard; bits of two numbers; bits, so many that are 0, and a count behind
// them; or those of four elements, of a value at 5, of a guard at 6 and of an index at 7.
fn push_input(input: &mut Vec<i64>, row: &Row, it: &Try) -> Result<(), AllocError> {
    match row.call {
        Call::Choose | Call::Same(_, _) => input.extend_from_slice(it),
        Call::Sum(_, _) => {
            push_bits(input, it[0], row.count)?;
            push_bits(input, it[1], row.count)
        }
        Call::Shift(_) => {
            push_bits(input, it[0], row.count.wrapping_mul(2))?;
            Ok(input.push(it[1])?)
        }
        _ => input.extend_from_slice(&[5, 0, -7, 1, 0, 9, it[1], it[0]]),
    }
}

fn scalar_at(input: &[i64], place: u32) -> i64 {
    input.get(place as usize).copied().unwrap_or(0)
}

fn is_under(guard: Guard, input: &[i64]) -> bool {
    match guard {
        Guard::Given(value) => value,
        Guard::Input(place) => scalar_at(input, place) != 0,
    }
}

// Whether the index leaves the list, or a count is negative.
fn is_outside(row: &Row, it: &Try) -> bool {
    let count = row.count as i64;
    match row.call {
        Call::Read | Call::Write => it[0] < 0 || it[0] >= count,
        Call::Slice(long) => it[0] < 0 || it[0] > count.wrapping_sub(long as i64),
        Call::Shift(_) => it[1] < 0,
        _ => false,
    }
}

// The place so far behind an index, where the index is in the list.
fn place_behind(index: i64, k: u32) -> u32 {
    match u32::try_from(index) {
        Ok(first) => first.wrapping_add(k),
        Err(_) => k,
    }
}

// The place of the element that is to stand at `k` of the answer.
fn place_at(row: &Row, it: &Try, input: &[i64], k: u32) -> u32 {
    match row.call {
        Call::Choose => (row.count == 2 && !is_under(row.guard, input)) as u32,
        Call::Read | Call::Slice(_) => place_behind(it[0], k),
        Call::Write if k as i64 != it[0] => k,
        Call::Write => if is_under(row.guard, input) { 5 } else { k },
        Call::Pad(_) if k < row.count => k,
        _ => 5,
    }
}

// How many elements the answer has, or bits.
fn length_of(row: &Row) -> u32 {
    match row.call {
        Call::Choose | Call::Same(_, _) | Call::Read => 1,
        Call::Slice(long) | Call::Pad(long) => long,
        Call::Write | Call::Sum(_, _) | Call::Shift(_) => row.count,
    }
}

fn push_elements(
    want: &mut Vec<i64>,
    row: &Row,
    it: &Try,
    input: &[i64],
) -> Result<(), AllocError> {
    for k in 0..length_of(row) {
        let place = place_at(row, it, input, k);
        push_wanted(want, row.kind, place, scalar_at(input, place))?;
    }
    Ok(())
}

// Whether what two shapes are to be seen as is the same.
fn push_equal(
    alloc: Global,
    want: &mut Vec<i64>,
    row: &Row,
    it: &Try,
    slots: (u32, u32),
) -> Result<(), AllocError> {
    let mut first = Vec::new(alloc);
    let mut second = Vec::new(alloc);
    push_wanted(&mut first, row.kind, slots.0, it[0])?;
    push_wanted(&mut second, row.kind, slots.1, it[1])?;
    Ok(want.push((first.as_slice() == second.as_slice()) as i64)?)
}

// What the answer is to be seen as.
fn push_answer(
    alloc: Global,
    want: &mut Vec<i64>,
    row: &Row,
    it: &Try,
    input: &[i64],
) -> Result<(), AllocError> {
    match row.call {
        Call::Same(a, b) => push_equal(alloc, want, row, it, (a, b)),
        Call::Sum(_, _) | Call::Shift(_) => push_bits(want, it[2], row.count),
        _ => push_elements(want, row, it, input),
    }
}

fn expect_seen(
    alloc: Global,
    dag: &Dag,
    env: &Env,
    row: &Row,
    it: &Try,
    made: &[Shape],
) -> Result<(), Fault> {
    let mut got = Vec::new(alloc);
    see_all(dag, env, made, &mut got)?;
    let mut want = Vec::new(alloc);
    push_answer(alloc, &mut want, row, it, env.input.as_slice())?;
    expect(got.as_slice() == want.as_slice())
}

fn expect_in(
    alloc: Global,
    dag: &Dag,
    env: &Env,
    row: &Row,
    it: &Try,
    made: &[Shape],
    outside: BoolId,
) -> Result<(), Fault> {
    let left = is_outside(row, it);
    let told = holds(dag, env, outside)?;
    expect(told == left && made.len() == length_of(row) as usize)?;
    match row.call {
        Call::Read | Call::Slice(_) | Call::Shift(_) if left => Ok(()),
        _ => expect_seen(alloc, dag, env, row, it, made),
    }
}

/// Whether the index is told to be outside where it is, and what the answer is seen as. Of an element, a part of a list or
/// bits moved by an index that is outside nothing is said.
pub fn expect_try(
    alloc: Global,
    dag: &Dag,
    row: &Row,
    it: &Try,
    made: &[Shape],
    outside: BoolId,
) -> Result<(), Fault> {
    let mut input = Vec::new(alloc);
    push_input(&mut input, row, it)?;
    let env = env_of(alloc, input.as_slice())?;
    expect_in(alloc, dag, &env, row, it, made, outside)
}
