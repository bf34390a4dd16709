//! Arguments as shapes over the scalars of the input.

ghost use Rattle.std.specs.Prelude.{◌≡◌, ◌<◌, ◌+◌, ◌*◌, IfOk, OnErr, replicate};
ghost use Rattle.sk_dag.specs.Eval.{Keeps};
ghost use Rattle.sk_oblig_arguments.specs.Arguments.{AllRead, AreArguments, ReadsElem, ReadsValue};
ghost use Rattle.sk_prog.specs.declared.ty.Elem.TheVariants as elem;
ghost use Rattle.sk_oblig_queries.specs.Said.{row_said, rows_said};
ghost use Rattle.sk_oblig_queries.specs.Widths.{elem_width, numbers_of as count_in};

use crate::constant::constant_null;
use sk_base::List;
use sk_dag::{Dag, Shape};
use sk_limits::too_many;
use sk_prog::{Elem, ParamDef, Ty};
use std::alloc::{AllocError, Global};

// A later scalar. It is refused where it has no room in 32 bits.
fn later(first: u32, count: u64) -> Result<u32, AllocError>
    ensures at { IfOk result (λ at. at ≡ first + count) }
    ensures refused { OnErr result (4294967295 < first + count) }
{
    match u32::try_from(u128::from(first) + u128::from(count)) {
        Ok(at) => Ok(at),
        Err(_) => Err(too_many()),
    }
}

// How many scalars a value of a type has.
fn count_in(ty: Ty) -> u64
    ensures { result ≡ count_in ty }
{
    match ty {
        Ty::One(_) => 1,
        Ty::Array(_, n) => u64::from(n),
        Ty::Grid(_, n, m) => u64::from(n) * u64::from(m),
    }
}

fn int_at(dag: &mut Dag, scalar: u32) -> Result<Shape, AllocError>
    ensures keeps { Keeps dag.old dag.new }
    ensures reads { IfOk result (λ r. ReadsElem dag.new elem.Int scalar r) }
{
    let id = dag.input_word(scalar)?;
    Ok(Shape::Int(id))
}

fn bit_at(dag: &mut Dag, scalar: u32) -> Result<Shape, AllocError>
    ensures keeps { Keeps dag.old dag.new }
    ensures reads { IfOk result (λ r. ReadsElem dag.new elem.Bit scalar r) }
{
    let id = dag.input_bit(scalar)?;
    Ok(Shape::Bit(id))
}

// The scalar as an element; a reference is null.
#[tactic(auto, using(crate::proofs::Shaping::staying))]
fn elem_at(alloc: Global, dag: &mut Dag, elem: Elem, scalar: u32) -> Result<Shape, AllocError>
    ensures keeps { Keeps dag.old dag.new }
    ensures reads { IfOk result (λ r. ReadsElem dag.new elem scalar r) }
{
    match elem {
        Elem::Int => int_at(dag, scalar),
        Elem::Bit => bit_at(dag, scalar),
        Elem::Reference(_) => Ok(constant_null(alloc)),
    }
}

#[tactic(auto, using(crate::proofs::Reading::rows))]
fn row_at(
    alloc: Global,
    dag: &mut Dag,
    elem: Elem,
    length: u32,
    first: u32,
) -> Result<List<Shape>, AllocError>
    ensures keeps { Keeps dag.old dag.new }
    ensures read { IfOk result (λ made. AllRead dag.new (λ inbits. replicate length (elem_width inbits elem)) (row_said elem length) first made) }
{
    let mut made = List::new(alloc);
    for k in 0..length {
        let at = later(first, u64::from(k))?;
        let one = elem_at(alloc, dag, elem, at)?;
        made.push(one)?;
    }
    Ok(made)
}

#[tactic(auto, using(crate::proofs::Reading::grids))]
fn rows_at(
    alloc: Global,
    dag: &mut Dag,
    elem: Elem,
    length: u32,
    count: u32,
    first: u32,
) -> Result<List<Shape>, AllocError>
    ensures keeps { Keeps dag.old dag.new }
    ensures read { IfOk result (λ made. AllRead dag.new (λ inbits. replicate (length * count) (elem_width inbits elem)) (rows_said elem length count) first made) }
{
    let mut made = List::new(alloc);
    for k in 0..count {
        let at = later(first, u64::from(length) * u64::from(k))?;
        let row = row_at(alloc, dag, elem, length, at)?;
        made.push(Shape::Array(row))?;
    }
    Ok(made)
}

fn value_at(alloc: Global, dag: &mut Dag, ty: Ty, first: u32) -> Result<Shape, AllocError>
    ensures keeps { Keeps dag.old dag.new }
    ensures reads { IfOk result (λ r. ReadsValue dag.new ty first r) }
{
    match ty {
        Ty::One(elem) => {
            let r = elem_at(alloc, dag, elem, first)?;
            Ok(r)
        }
        Ty::Array(elem, n) => {
            let row = row_at(alloc, dag, elem, n, first)?;
            Ok(Shape::Array(row))
        }
        Ty::Grid(elem, n, m) => {
            let rows = rows_at(alloc, dag, elem, n, m, first)?;
            Ok(Shape::Array(rows))
        }
    }
}

/// A value for each parameter, made of the scalars of the input from one on.
///
/// # Errors
///
/// Memory is wanting, or there are more scalars than can be numbered.
#[tactic(auto, using(crate::proofs::Reading::several))]
pub fn arguments(
    alloc: Global,
    dag: &mut Dag,
    params: &[ParamDef],
    first: u32,
) -> Result<List<Shape>, AllocError>
    ensures keeps { Keeps dag.old dag.new }
    ensures arguments { IfOk result (λ made. AreArguments dag.new params.now first made) }
{
    let mut made = List::new(alloc);
    let mut at = first;
    for param in params {
        let one = value_at(alloc, dag, param.ty, at)?;
        made.push(one)?;
        at = later(at, count_in(param.ty))?;
    }
    Ok(made)
}
