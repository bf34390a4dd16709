//! The calls, each with tests of what it asks of its arguments.

ghost use Rattle.std.specs.Prelude.{◌≤◌, length, OnOk};
ghost use Rattle.sk_dag.specs.Graph.{HasBool, HasWord};
ghost use Rattle.sk_arr.specs.Shapes.{Alike, AlikeTo, AllAlike, Stands, AllStand};
ghost use Rattle.sk_arr.specs.Bits.{AreBits};

use crate::kinds::alone;
use crate::known::{alike, alike_to, all_alike, all_stand, are_bits, stands};
use row_tables::{Fault, expect, has_bool, has_word, is_word};
use sk_arr::{add_bits, choose, pad, read, same, shift, slice, write_under};
use sk_base::List;
use sk_dag::{BoolId, Dag, Shape, WordId};
use std::alloc::Global;

fn need_bool(dag: &Dag, a: BoolId) -> Result<(), Fault>
    ensures { OnOk result (HasBool dag.now.nodes a) }
{
    expect(has_bool(dag, a))
}

fn need_word(dag: &Dag, a: WordId) -> Result<(), Fault>
    ensures { OnOk result (HasWord dag.now.nodes a) }
{
    expect(has_word(dag, a))
}

fn need_two(dag: &Dag, a: &Shape, b: &Shape) -> Result<(), Fault>
    ensures first { OnOk result (Stands dag.now a.now) }
    ensures second { OnOk result (Stands dag.now b.now) }
    ensures alike { OnOk result (Alike a.now b.now) }
{
    expect(stands(dag, a))?;
    expect(stands(dag, b))?;
    expect(alike(a, b))
}

fn need_list(dag: &Dag, list: &List<Shape>) -> Result<(), Fault>
    ensures stand { OnOk result (AllStand dag.now list.now) }
    ensures alike { OnOk result (AllAlike list.now) }
    ensures some { OnOk result (1 ≤ length list.now) }
{
    expect(all_stand(dag, list.as_slice()))?;
    expect(all_alike(list.as_slice()))?;
    expect(list.len() >= 1)
}

fn need_alike(dag: &Dag, a: &Shape, list: &List<Shape>) -> Result<(), Fault>
    ensures stands { OnOk result (Stands dag.now a.now) }
    ensures stand { OnOk result (AllStand dag.now list.now) }
    ensures alike { OnOk result (AlikeTo a.now list.now) }
{
    expect(stands(dag, a))?;
    expect(all_stand(dag, list.as_slice()))?;
    expect(alike_to(a, list.as_slice()))
}

fn need_bits(dag: &Dag, list: &List<Shape>) -> Result<(), Fault>
    ensures stand { OnOk result (AllStand dag.now list.now) }
    ensures bits { OnOk result (AreBits list.now) }
{
    expect(all_stand(dag, list.as_slice()))?;
    expect(are_bits(list.as_slice()))
}

/// A graph of words of so many bits, with both flags.
pub fn graph(alloc: Global, bits: u32) -> Result<Dag, Fault> {
    expect(bits >= 2 && bits <= 32)?;
    let mut dag = Dag::new(alloc, bits);
    dag.flag(true)?;
    dag.flag(false)?;
    Ok(dag)
}

/// A word that is given.
pub fn given(dag: &mut Dag, number: i64) -> Result<WordId, Fault> {
    expect(is_word(dag.int_bits(), number))?;
    let made = dag.word(number)?;
    Ok(made)
}

/// A call of an operation on values.
#[derive(Clone, Copy)]
pub enum Call {
    /// The first of two shapes where the guard holds, and else the second.
    Choose,
    /// Whether two shapes are equal, whose references are to these slots.
    Same(u32, u32),
    /// The element at the index.
    Read,
    /// The list with a value at the index, where the guard holds.
    Write,
    /// So many elements from the index on.
    Slice(u32),
    /// The list made so long.
    Pad(u32),
    /// The sum of two numbers of bits, each of the input or given.
    Sum(Option<i64>, Option<i64>),
    /// The bits moved by the index, to higher places or to lower ones.
    Shift(bool),
}

/// What a call takes: its list or its two shapes; the value, what it pads with, or the second number; and the rest.
#[derive(Clone, Copy)]
pub struct Args<'a> {
    pub list: &'a List<Shape>,
    pub more: &'a List<Shape>,
    pub guard: BoolId,
    pub index: WordId,
}

/// An answer, and whether the index was outside.
pub type Answer = (List<Shape>, BoolId);

// An answer of a call without an index.
fn inside(dag: &mut Dag, made: List<Shape>) -> Result<Answer, Fault> {
    let never = dag.flag(false)?;
    Ok((made, never))
}

// `choose`, as a list of one.
fn chosen(
    alloc: Global,
    dag: &mut Dag,
    c: BoolId,
    a: &Shape,
    b: &Shape,
) -> Result<List<Shape>, Fault> {
    need_bool(dag, c)?;
    need_two(dag, a, b)?;
    let made = choose(alloc, dag, c, a, b)?;
    Ok(alone(alloc, made)?)
}

// `same`, as a list of one bit.
fn compared(alloc: Global, dag: &mut Dag, a: &Shape, b: &Shape) -> Result<List<Shape>, Fault> {
    need_two(dag, a, b)?;
    let made = same(dag, a, b)?;
    Ok(alone(alloc, Shape::Bit(made))?)
}

// `choose` or `same` of two shapes, or of one and itself.
fn of_two(alloc: Global, dag: &mut Dag, call: Call, args: Args) -> Result<List<Shape>, Fault> {
    let (a, b) = match args.list.as_slice() {
        [a] => (a, a),
        [a, b] => (a, b),
        _ => return Err(Fault::Wrong),
    };
    match call {
        Call::Choose => chosen(alloc, dag, args.guard, a, b),
        _ => compared(alloc, dag, a, b),
    }
}

// `read`, as a list of one.
fn element_at(alloc: Global, dag: &mut Dag, args: Args) -> Result<Answer, Fault> {
    need_word(dag, args.index)?;
    need_list(dag, args.list)?;
    let (made, outside) = read(alloc, dag, args.list, args.index)?;
    Ok((alone(alloc, made)?, outside))
}

// `write_under`, of a value that stands alone in its list.
fn written(alloc: Global, dag: &mut Dag, args: Args) -> Result<Answer, Fault> {
    let [value] = args.more.as_slice() else {
        return Err(Fault::Wrong);
    };
    need_bool(dag, args.guard)?;
    need_word(dag, args.index)?;
    need_alike(dag, value, args.list)?;
    let made = write_under(alloc, dag, args.guard, args.list, args.index, value)?;
    Ok(made)
}

// `slice`.
fn window(alloc: Global, dag: &mut Dag, args: Args, count: u32) -> Result<Answer, Fault> {
    need_word(dag, args.index)?;
    need_list(dag, args.list)?;
    expect(count >= 1 && count as usize <= args.list.len())?;
    let made = slice(alloc, dag, args.list, args.index, count)?;
    Ok(made)
}

// `pad`, by a shape that stands alone in its list.
fn padded(alloc: Global, dag: &mut Dag, args: Args, count: u32) -> Result<List<Shape>, Fault> {
    let [zero] = args.more.as_slice() else {
        return Err(Fault::Wrong);
    };
    need_alike(dag, zero, args.list)?;
    expect(args.list.len() <= count as usize)?;
    let made = pad(alloc, dag, args.list, zero, count)?;
    Ok(made)
}

// `add_bits`.
fn summed(alloc: Global, dag: &mut Dag, args: Args) -> Result<List<Shape>, Fault> {
    need_bits(dag, args.list)?;
    need_bits(dag, args.more)?;
    expect(args.list.len() == args.more.len())?;
    let made = add_bits(alloc, dag, args.list, args.more)?;
    Ok(made)
}

// `shift`.
fn shifted(alloc: Global, dag: &mut Dag, args: Args, left: bool) -> Result<Answer, Fault> {
    need_word(dag, args.index)?;
    need_bits(dag, args.list)?;
    let made = shift(alloc, dag, left, args.list, args.index)?;
    Ok(made)
}

// A call of which no index is asked.
fn answer_inside(
    alloc: Global,
    dag: &mut Dag,
    call: Call,
    args: Args,
) -> Result<List<Shape>, Fault> {
    match call {
        Call::Pad(count) => padded(alloc, dag, args, count),
        Call::Sum(_, _) => summed(alloc, dag, args),
        _ => of_two(alloc, dag, call, args),
    }
}

/// What a call answers.
pub fn answer(alloc: Global, dag: &mut Dag, call: Call, args: Args) -> Result<Answer, Fault> {
    match call {
        Call::Read => element_at(alloc, dag, args),
        Call::Write => written(alloc, dag, args),
        Call::Slice(count) => window(alloc, dag, args, count),
        Call::Shift(left) => shifted(alloc, dag, args, left),
        _ => {
            let made = answer_inside(alloc, dag, call, args)?;
            inside(dag, made)
        }
    }
}
