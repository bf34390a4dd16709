//! The input of an obligation that bits say.

ghost use Rattle.std.specs.Prelude.{◌≡◌, ◌≤◌, ◌^◌, IfOk, OnErr};
ghost use Rattle.sk_prog.specs.declared.ty.Elem.TheVariants as elem;
ghost use Rattle.sk_oblig_queries.specs.Queries.{input_of_query};
ghost use Rattle.sk_oblig_queries.specs.Said.{args_said, elem_said, first_of, row_said, rows_said, value_said};

use crate::numbers::numbers_of_bits;
use crate::query::Query;
use crate::slices::behind;
use crate::widths::{first_number, numbers_of, params_at, widths_of};
use sk_base::{Bounds, List};
use sk_limits::never;
use sk_model::{Expanded, Input};
use sk_prog::{Elem, ParamDef, Ty, Value};
use std::alloc::{AllocError, Global};

// The first number, and 0 where there is none.
fn first_of(numbers: &[u64]) -> u64
    ensures { result ≡ first_of numbers.now }
{
    match numbers {
        [] => 0,
        [number, ..] => *number,
    }
}

// An `int`. No input has one of more than 32 bits, so each has room in a value.
fn int_of(number: u64) -> Result<Value, AllocError>
    ensures int { IfOk result (λ value. value ≡ elem_said elem.Int number) }
    ensures refused { OnErr result (2 ^ 63 ≤ number) }
{
    match i64::try_from(number) {
        Ok(int) => Ok(Value::Int(int)),
        Err(_) => Err(never()),
    }
}

fn elem_said(elem: Elem, number: u64) -> Result<Value, AllocError>
    ensures { IfOk result (λ value. value ≡ elem_said elem number) }
{
    match elem {
        Elem::Int => int_of(number),
        Elem::Bit => Ok(Value::Bit(number == 1)),
        Elem::Reference(_) => Ok(Value::Null),
    }
}

#[tactic(auto, using(crate::proofs::Steps::row_steps))]
fn row_said(
    alloc: Global,
    elem: Elem,
    length: u32,
    numbers: &[u64],
) -> Result<List<Value>, AllocError>
    ensures { IfOk result (λ row. row ≡ row_said elem length numbers.now) }
{
    let mut row = List::new(alloc);
    let mut rest = numbers;
    for _place in 0..length {
        let value = elem_said(elem, first_of(rest))?;
        row.push(value)?;
        rest = behind(rest, 1);
    }
    Ok(row)
}

#[tactic(auto, using(crate::proofs::Steps::rows_steps))]
fn rows_said(
    alloc: Global,
    elem: Elem,
    length: u32,
    count: u32,
    numbers: &[u64],
) -> Result<List<Value>, AllocError>
    ensures { IfOk result (λ rows. rows ≡ rows_said elem length count numbers.now) }
{
    let mut rows = List::new(alloc);
    let mut rest = numbers;
    for _place in 0..count {
        let row = row_said(alloc, elem, length, rest)?;
        rows.push(Value::Array(row))?;
        rest = behind(rest, length as usize);
    }
    Ok(rows)
}

fn value_said(alloc: Global, ty: Ty, numbers: &[u64]) -> Result<Value, AllocError>
    ensures { IfOk result (λ value. value ≡ value_said ty numbers.now) }
{
    match ty {
        Ty::One(elem) => {
            let value = elem_said(elem, first_of(numbers))?;
            Ok(value)
        }
        Ty::Array(elem, n) => {
            let row = row_said(alloc, elem, n, numbers)?;
            Ok(Value::Array(row))
        }
        Ty::Grid(elem, n, m) => {
            let rows = rows_said(alloc, elem, n, m, numbers)?;
            Ok(Value::Array(rows))
        }
    }
}

/// The arguments that numbers say, one for each parameter.
#[tactic(auto, using(crate::proofs::Steps::args_steps))]
fn args_said(alloc: Global, params: &[ParamDef], numbers: &[u64]) -> Result<List<Value>, AllocError>
    ensures { IfOk result (λ args. args ≡ args_said params.now numbers.now) }
{
    let mut args = List::new(alloc);
    let mut rest = numbers;
    for param in params {
        let value = value_said(alloc, param.ty, rest)?;
        args.push(value)?;
        rest = behind(rest, numbers_of(param.ty) as usize);
    }
    Ok(args)
}

/// The input of the obligation with a number that the bits of a query say.
#[tactic(auto, using(crate::proofs::Narrow::narrow_query))]
pub fn input_of_bits(
    alloc: Global,
    expanded: &Expanded,
    bounds: &Bounds,
    query: &Query,
    obligation: u32,
    bits: &[bool],
) -> Result<Input, AllocError>
    requires inbits { bounds.now.inbits ≤ 32 }
    ensures { IfOk result (λ input. input ≡ input_of_query expanded.now bounds.now query.now obligation bits.now) }
{
    let widths = widths_of(alloc, expanded, bounds, query)?;
    let numbers = numbers_of_bits(alloc, widths.as_slice(), bits)?;
    let first = first_number(alloc, expanded, bounds, query, obligation)?;
    let params = params_at(alloc, &expanded.prog, obligation)?;
    let args = args_said(alloc, params, behind(numbers.as_slice(), first))?;
    Ok(Input { obligation, args })
}
