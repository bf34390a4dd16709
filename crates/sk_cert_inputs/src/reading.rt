//! The inputs that a certificate lists.
ghost use Rattle.std.specs.Prelude.{◌≡◌, ◌^◌, List as ListOf, IfOk, MatchOption, drop, map, nat_lt, option_map, slice_get, take, None, Some};
ghost use Rattle.sk_model.specs.declared.expanded.Input.{Input as AnInput};
ghost use Rattle.sk_model.specs.Inputs.{fun_of};
ghost use Rattle.sk_model.specs.Obligations.{obligations};
ghost use Rattle.sk_prog.specs.declared.value.Value.TheVariants as value;
ghost use Rattle.sk_cert_inputs.specs.Inputs.{AreListed};
ghost use Rattle.sk_cert_inputs.specs.Reading.{all_listed, args_listed, array_listed, bit_listed, elem_listed, input_listed, input_of_fun, input_of_obligation, int_listed, one_listed, row_listed, rows_listed, value_listed};

use sk_base::{Bounds, List};
use sk_cert::CertInput;
use sk_limits::too_many;
use sk_model::{Input, Obligation};
use sk_oblig_queries::obligations;
use sk_prog::{Elem, Fun, FunId, ParamDef, Prog, Ty, Value};
use std::alloc::{AllocError, Global};

// The first so many items, or all.
fn front<T>(items: &[T], count: usize) -> &[T]
    ensures { result.now ≡ take count items.now }
{
    if items.len() <= count {
        return items;
    }
    &items[..count]
}

// All but the first so many items.
fn behind<T>(items: &[T], count: usize) -> &[T]
    ensures { result.now ≡ drop count items.now }
{
    if items.len() <= count {
        return &[];
    }
    &items[count..]
}

// Whether a number has at most so many bits.
fn has_bits(number: u64, bits: u32) -> bool
    ensures { result ≡ nat_lt number (2 ^ bits) }
{
    if bits >= 64 {
        return true;
    }
    number < 1 << bits
}

fn int_listed(inbits: u32, scalar: i64) -> Option<Value>
    ensures { result ≡ int_listed inbits scalar }
{
    if scalar < 0 {
        return None;
    }
    if has_bits(scalar as u64, inbits) {
        return Some(Value::Int(scalar));
    }
    None
}

fn bit_listed(scalar: i64) -> Option<Value>
    ensures { result ≡ bit_listed scalar }
{
    match scalar {
        0 => Some(Value::Bit(false)),
        1 => Some(Value::Bit(true)),
        _ => None,
    }
}

fn elem_listed(inbits: u32, elem: Elem, scalar: i64) -> Option<Value>
    ensures { result ≡ elem_listed inbits elem scalar }
{
    match elem {
        Elem::Int => int_listed(inbits, scalar),
        Elem::Bit => bit_listed(scalar),
        Elem::Reference(_) => None,
    }
}

#[tactic(auto, using(crate::proofs::Gathered::steps))]
fn row_listed(
    alloc: Global,
    inbits: u32,
    elem: Elem,
    scalars: &[i64],
) -> Result<Option<List<Value>>, AllocError>
    ensures { IfOk result (λ row. row ≡ row_listed inbits elem scalars.now) }
{
    let mut row = List::new(alloc);
    let mut rest = scalars;
    while let [scalar, after @ ..] = rest {
        let Some(value) = elem_listed(inbits, elem, *scalar) else {
            return Ok(None);
        };
        row.push(value)?;
        rest = after;
    }
    Ok(Some(row))
}

fn array_listed(
    alloc: Global,
    inbits: u32,
    elem: Elem,
    length: u32,
    scalars: &[i64],
) -> Result<Option<Value>, AllocError>
    ensures { IfOk result (λ found. found ≡ array_listed inbits elem length scalars.now) }
{
    if scalars.len() != length as usize {
        return Ok(None);
    }
    match row_listed(alloc, inbits, elem, scalars)? {
        None => Ok(None),
        Some(row) => Ok(Some(Value::Array(row))),
    }
}

#[tactic(auto, using(crate::proofs::Gathered::steps))]
fn rows_listed(
    alloc: Global,
    inbits: u32,
    elem: Elem,
    length: u32,
    count: u32,
    scalars: &[i64],
) -> Result<Option<List<Value>>, AllocError>
    ensures { IfOk result (λ rows. rows ≡ rows_listed inbits elem length count scalars.now) }
{
    let mut rows = List::new(alloc);
    let mut rest = scalars;
    for _place in 0..count {
        let row = front(rest, length as usize);
        let Some(value) = array_listed(alloc, inbits, elem, length, row)? else {
            return Ok(None);
        };
        rows.push(value)?;
        rest = behind(rest, length as usize);
    }
    if rest.is_empty() {
        return Ok(Some(rows));
    }
    Ok(None)
}

fn one_listed(inbits: u32, elem: Elem, scalars: &[i64]) -> Option<Value>
    ensures { result ≡ one_listed inbits elem scalars.now }
{
    match scalars {
        [scalar] => elem_listed(inbits, elem, *scalar),
        _ => None,
    }
}

fn value_listed(
    alloc: Global,
    inbits: u32,
    ty: Ty,
    scalars: &[i64],
) -> Result<Option<Value>, AllocError>
    ensures { IfOk result (λ found. found ≡ value_listed inbits ty scalars.now) }
{
    match ty {
        Ty::One(elem) => Ok(one_listed(inbits, elem, scalars)),
        Ty::Array(elem, n) => {
            let found = array_listed(alloc, inbits, elem, n, scalars)?;
            Ok(found)
        }
        Ty::Grid(elem, n, m) => match rows_listed(alloc, inbits, elem, n, m, scalars)? {
            None => Ok(None),
            Some(rows) => Ok(Some(Value::Array(rows))),
        },
    }
}

// The arguments of these scalars, one for each parameter.
#[tactic(auto, using(crate::proofs::Gathered::steps))]
fn args_listed(
    alloc: Global,
    inbits: u32,
    params: &[ParamDef],
    args: &[List<i64>],
) -> Result<Option<List<Value>>, AllocError>
    ensures { IfOk result (λ found. found ≡ args_listed inbits params.now args.now) }
{
    let mut values = List::new(alloc);
    let mut rest = args;
    for param in params {
        let [scalars, after @ ..] = rest else {
            return Ok(None);
        };
        let Some(value) = value_listed(alloc, inbits, param.ty, scalars.as_slice())? else {
            return Ok(None);
        };
        values.push(value)?;
        rest = after;
    }
    if rest.is_empty() {
        return Ok(Some(values));
    }
    Ok(None)
}

// The function of an obligation.
fn fun_of(obligation: Obligation) -> FunId
    ensures { result ≡ fun_of obligation }
{
    match obligation {
        Obligation::Harness(f) => f,
        Obligation::Implements { f, .. } => f,
    }
}

// The input of a function. An obligation's number of more than 32 bits, which none has, has no room.
fn input_of_fun(
    alloc: Global,
    inbits: u32,
    input: &CertInput,
    fun: &Fun,
) -> Result<Option<Input>, AllocError>
    ensures { IfOk result (λ found. found ≡ input_of_fun inbits input.now (Some fun.now)) }
{
    let Some(args) = args_listed(alloc, inbits, fun.params.as_slice(), input.args.as_slice())?
    else {
        return Ok(None);
    };
    match u32::try_from(input.obligation) {
        Ok(obligation) => Ok(Some(Input { obligation, args })),
        Err(_) => Err(too_many()),
    }
}

// The number of an obligation among others. None has one that is too large for an index.
fn obligation_at(obligations: &[Obligation], number: u64) -> Option<&Obligation>
    ensures { MatchOption result (slice_get obligations.now number ≡ None) (λ o. slice_get obligations.now number ≡ Some o.now) }
{
    obligations.get(number as usize)
}

// The input that is listed, if it is one of the program.
fn input_listed(
    alloc: Global,
    prog: &Prog,
    bounds: &Bounds,
    all: &[Obligation],
    input: &CertInput,
) -> Result<Option<Input>, AllocError>
    requires { all.now ≡ obligations prog.now }
    ensures { IfOk result (λ found. found ≡ input_listed prog.now bounds.now input.now) }
{
    let Some(obligation) = obligation_at(all, input.obligation) else {
        return Ok(None);
    };
    let Some(fun) = prog.funs.get(fun_of(*obligation).index as usize) else {
        return Ok(None);
    };
    let found = input_of_fun(alloc, bounds.inbits, input, fun)?;
    Ok(found)
}

#[tactic(auto, using(crate::proofs::Gathered::steps))]
fn all_listed(
    alloc: Global,
    prog: &Prog,
    bounds: &Bounds,
    inputs: &[CertInput],
) -> Result<Option<List<Input>>, AllocError>
    ensures { IfOk result (λ found. found ≡ all_listed prog.now bounds.now inputs.now) }
{
    let all = obligations(alloc, prog)?;
    let mut found = List::new(alloc);
    let mut rest = inputs;
    while let [input, after @ ..] = rest {
        let Some(input) = input_listed(alloc, prog, bounds, all.as_slice(), input)? else {
            return Ok(None);
        };
        found.push(input)?;
        rest = after;
    }
    Ok(Some(found))
}

/// The inputs of a program that a certificate lists, if each that it lists is one. A parameter that holds a reference has
/// none.
pub fn inputs_listed(
    alloc: Global,
    prog: &Prog,
    bounds: &Bounds,
    inputs: &[CertInput],
) -> Result<Option<List<Input>>, AllocError>
    ensures { IfOk result (λ found. MatchOption found ((is : ListOf AnInput) → AreListed prog.now bounds.now inputs.now is → ⊥) (λ is. AreListed prog.now bounds.now inputs.now is)) }
{
    let found = all_listed(alloc, prog, bounds, inputs)?;
    Ok(found)
}
