//! Zeros, written numbers and constants.

ghost use Rattle.std.specs.Prelude.{◌≡◌, ◌≤◌, Some, IfOk};
ghost use Rattle.std.specs.Option.{option_copied};
ghost use Rattle.sk_base.specs.Word.{IsWord};
ghost use Rattle.sk_dag.specs.Eval.{Keeps};
ghost use Rattle.sk_model.specs.Values.{zero_of as zero_of_type};
ghost use Rattle.sk_model.specs.Eval.{literal as literal_of, const_value as const_value_of};
ghost use Rattle.sk_prog.specs.declared.value.Value.TheVariants as value;
ghost use Rattle.sk_prog.specs.declared.ty.Ty.TheVariants as ty;
ghost use Rattle.sk_sym_literals.specs.Given.{IsGiven};

use crate::given::{int, number_at, zero_of_elem};
use crate::padding::{padded_grid, padded_row, zero_grid, zero_row};
use sk_base::wrap;
use sk_dag::{Dag, Shape};
use sk_limits::never;
use sk_prog::{ConstDef, Elem, Ty};
use std::alloc::{AllocError, Global};

/// The 0 of a type: false, 0, null, or an array of these.
///
/// # Errors
///
/// Memory is wanting. After a refusal the graph has all nodes that it had (`keeps`).
pub fn zero_of(alloc: Global, dag: &mut Dag, ty: Ty) -> Result<Shape, AllocError>
    ensures keeps { Keeps dag.old dag.new }
    ensures given { IfOk result (λ r. IsGiven dag.new (zero_of_type ty) r) }
{
    match ty {
        Ty::One(elem) => {
            let r = zero_of_elem(alloc, dag, elem)?;
            Ok(r)
        }
        Ty::Array(elem, count) => {
            let r = zero_row(alloc, dag, elem, count)?;
            Ok(r)
        }
        Ty::Grid(elem, count, rows) => {
            let r = zero_grid(alloc, dag, elem, count, rows)?;
            Ok(r)
        }
    }
}

/// A written number at a type of arrays.
fn literal_row(
    alloc: Global,
    dag: &mut Dag,
    elem: Elem,
    count: u32,
    n: u32,
) -> Result<Shape, AllocError>
    ensures keeps { Keeps dag.old dag.new }
    ensures given { IfOk result (λ r. IsGiven dag.new (literal_of dag.old.bits (Some (ty.Array elem count)) n) r) }
{
    let one = number_at(alloc, dag, elem, n)?;
    let r = padded_row(alloc, dag, elem, count, one)?;
    Ok(r)
}

/// A written number at a type of arrays of arrays.
fn literal_grid(
    alloc: Global,
    dag: &mut Dag,
    elem: Elem,
    count: u32,
    rows: u32,
    n: u32,
) -> Result<Shape, AllocError>
    ensures keeps { Keeps dag.old dag.new }
    ensures given { IfOk result (λ r. IsGiven dag.new (literal_of dag.old.bits (Some (ty.Grid elem count rows)) n) r) }
{
    let row = literal_row(alloc, dag, elem, count, n)?;
    let r = padded_grid(alloc, dag, elem, count, rows, row)?;
    Ok(r)
}

/// The value of a written number at its type.
///
/// # Errors
///
/// Memory is wanting. After a refusal the graph has all nodes that it had (`keeps`).
pub fn literal(alloc: Global, dag: &mut Dag, ty: Option<Ty>, n: u32) -> Result<Shape, AllocError>
    ensures keeps { Keeps dag.old dag.new }
    ensures given { IfOk result (λ r. IsGiven dag.new (literal_of dag.old.bits ty n) r) }
{
    match ty {
        None => {
            let r = number_at(alloc, dag, Elem::Int, n)?;
            Ok(r)
        }
        Some(Ty::One(elem)) => {
            let r = number_at(alloc, dag, elem, n)?;
            Ok(r)
        }
        Some(Ty::Array(elem, count)) => {
            let r = literal_row(alloc, dag, elem, count, n)?;
            Ok(r)
        }
        Some(Ty::Grid(elem, count, rows)) => {
            let r = literal_grid(alloc, dag, elem, count, rows, n)?;
            Ok(r)
        }
    }
}

/// A number, where it is in range of the width, as that of each constant of a typed program is.
fn in_range(bits: u32, z: i64) -> Result<i64, AllocError>
    requires bits_low { 2 ≤ bits }
    requires bits_high { bits ≤ 32 }
    ensures same { IfOk result (λ n. n ≡ z) }
    ensures range { IfOk result (λ n. IsWord bits n) }
{
    let n = wrap(bits, z);
    if n != z {
        return Err(never());
    }
    Ok(n)
}

/// A number as a word, where it is one of the width.
#[tactic(auto, using(sk_sym_folds::proofs::Makers::arithmetic))]
fn whole(dag: &mut Dag, z: i64) -> Result<Shape, AllocError>
    ensures keeps { Keeps dag.old dag.new }
    ensures given { IfOk result (λ r. IsGiven dag.new (value.Int z) r) }
{
    let bits = dag.int_bits();
    let n = in_range(bits, z)?;
    let r = int(dag, n)?;
    Ok(r)
}

/// The value of a constant, and 0 where there is none.
///
/// # Errors
///
/// Memory is wanting, or the number is out of range of the width, as that of no constant of a typed program is. After a refusal
/// the graph has all nodes that it had (`keeps`).
pub fn const_value(dag: &mut Dag, found: Option<&ConstDef>) -> Result<Shape, AllocError>
    ensures keeps { Keeps dag.old dag.new }
    ensures given { IfOk result (λ r. IsGiven dag.new (const_value_of (option_copied found.entry)) r) }
{
    match found {
        None => {
            let r = whole(dag, 0)?;
            Ok(r)
        }
        Some(c) => {
            let r = whole(dag, c.number)?;
            Ok(r)
        }
    }
}
