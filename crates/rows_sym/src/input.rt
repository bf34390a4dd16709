//! Arguments: values as scalars of an input, and the shapes of parameters over these.

ghost use Rattle.std.specs.Prelude.{IfOk};
ghost use Rattle.sk_dag.specs.Eval.{Keeps};
ghost use Rattle.sk_arr.specs.Shapes.{Stands, AllStand};

use sk_base::List;
use sk_dag::{Dag, Shape};
use sk_prog::{Elem, ParamDef, Ty, Value};
use std::alloc::{AllocError, Global};

/// Appends the scalars of values, in order.
#[cycle(scalars)]
pub fn push_scalars(scalars: &mut List<i64>, values: &[Value]) -> Result<(), AllocError> {
    for value in values {
        push_scalars_of(scalars, value)?;
    }
    Ok(())
}

#[cycle(scalars)]
fn push_scalars_of(scalars: &mut List<i64>, value: &Value) -> Result<(), AllocError> {
    match value {
        Value::Bit(bit) => scalars.push(i64::from(*bit)),
        Value::Int(number) => scalars.push(*number),
        Value::Null | Value::Place(_) => Ok(()),
        Value::Array(values) => push_scalars(scalars, values.as_slice()),
    }
}

/// The number of the next scalar, which is taken.
fn next_number(next: &mut u32) -> Result<u32, AllocError> {
    let number = *next;
    match number.checked_add(1) {
        Some(after) => {
            *next = after;
            Ok(number)
        }
        None => Err(AllocError),
    }
}

/// The next scalar as a shape. No parameter of a row has a reference.
#[tactic(auto, using(crate::proofs::Inputs::inputs))]
fn scalar(dag: &mut Dag, elem: Elem, next: &mut u32) -> Result<Shape, AllocError>
    ensures keeps { Keeps dag.old dag.new }
    ensures stands { IfOk result (λ r. Stands dag.new r) }
{
    let number = next_number(next)?;
    match elem {
        Elem::Bit => {
            let id = dag.input_bit(number)?;
            Ok(Shape::Bit(id))
        }
        Elem::Int => {
            let id = dag.input_word(number)?;
            Ok(Shape::Int(id))
        }
        Elem::Reference(_) => Err(AllocError),
    }
}

/// An array of the next scalars.
#[tactic(auto, using(crate::proofs::Inputs::inputs))]
fn row(
    alloc: Global,
    dag: &mut Dag,
    elem: Elem,
    count: u32,
    next: &mut u32,
) -> Result<Shape, AllocError>
    ensures keeps { Keeps dag.old dag.new }
    ensures stands { IfOk result (λ r. Stands dag.new r) }
{
    let mut parts = List::new(alloc);
    for _ in 0..count {
        let part = scalar(dag, elem, next)?;
        parts.push(part)?;
    }
    Ok(Shape::Array(parts))
}

/// An array of arrays of the next scalars.
#[tactic(auto, using(crate::proofs::Inputs::inputs))]
fn grid(
    alloc: Global,
    dag: &mut Dag,
    elem: Elem,
    count: u32,
    rows: u32,
    next: &mut u32,
) -> Result<Shape, AllocError>
    ensures keeps { Keeps dag.old dag.new }
    ensures stands { IfOk result (λ r. Stands dag.new r) }
{
    let mut parts = List::new(alloc);
    for _ in 0..rows {
        let part = row(alloc, dag, elem, count, next)?;
        parts.push(part)?;
    }
    Ok(Shape::Array(parts))
}

fn shape_of(alloc: Global, dag: &mut Dag, ty: Ty, next: &mut u32) -> Result<Shape, AllocError>
    ensures keeps { Keeps dag.old dag.new }
    ensures stands { IfOk result (λ r. Stands dag.new r) }
{
    match ty {
        Ty::One(elem) => scalar(dag, elem, next),
        Ty::Array(elem, count) => row(alloc, dag, elem, count, next),
        Ty::Grid(elem, count, rows) => grid(alloc, dag, elem, count, rows, next),
    }
}

/// The shapes of parameters, whose scalars are those of the input in order.
#[tactic(auto, using(crate::proofs::Inputs::inputs))]
pub fn shapes_of(
    alloc: Global,
    dag: &mut Dag,
    params: &[ParamDef],
) -> Result<List<Shape>, AllocError>
    ensures keeps { Keeps dag.old dag.new }
    ensures stand { IfOk result (λ made. AllStand dag.new made) }
{
    let mut next = 0u32;
    let mut made = List::new(alloc);
    for param in params {
        let one = shape_of(alloc, dag, param.ty, &mut next)?;
        made.push(one)?;
    }
    Ok(made)
}
