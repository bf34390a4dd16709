//! Written numbers, elements and slices.

ghost use Rattle.std.specs.Prelude.{◌≡◌, ◌≤◌, IfOk};
ghost use Rattle.sk_model.specs.Eval.{number_at, literal, padded_at, unfilled, indexed, sliced};
ghost use Rattle.sk_model.specs.Step.{pure};
ghost use Rattle.sk_interp.specs.Records.{Computes};

use crate::stop::Stop;
use crate::value::{copy, copy_all, element, elements, padded};
use sk_base::{List, Span, wrap};
use sk_prog::{Elem, Ty, Value};
use std::alloc::{AllocError, Global};

fn number_at(bits: u32, e: Elem, n: u32) -> Value
    requires bits_low { 2 ≤ bits }
    requires bits_high { bits ≤ 32 }
    ensures { result ≡ number_at bits e n }
{
    match e {
        Elem::Int => Value::Int(wrap(bits, i64::from(n))),
        Elem::Bit => Value::Bit(n != 0),
        Elem::Reference(_) => Value::Null,
    }
}

/// The value of a written number at its type.
pub fn literal(alloc: Global, bits: u32, ty: Option<Ty>, n: u32) -> Result<Value, AllocError>
    requires bits_low { 2 ≤ bits }
    requires bits_high { bits ≤ 32 }
    ensures { IfOk result (λ v. v ≡ literal bits ty n) }
{
    match ty {
        None => Ok(number_at(bits, Elem::Int, n)),
        Some(Ty::One(e)) => Ok(number_at(bits, e, n)),
        Some(Ty::Array(e, k)) => {
            let made = padded(alloc, Ty::Array(e, k), number_at(bits, e, n))?;
            Ok(made)
        }
        Some(Ty::Grid(e, k, m)) => {
            let row = padded(alloc, Ty::Array(e, k), number_at(bits, e, n))?;
            let made = padded(alloc, Ty::Grid(e, k, m), row)?;
            Ok(made)
        }
    }
}

/// The same, as what an expression does.
#[inline(never)]
pub fn literal_value(alloc: Global, bits: u32, ty: Option<Ty>, n: u32) -> Result<Value, Stop>
    requires bits_low { 2 ≤ bits }
    requires bits_high { bits ≤ 32 }
    ensures { Computes result (pure (literal bits ty n)) }
{
    let v = literal(alloc, bits, ty, n)?;
    Ok(v)
}

/// A value as one of a longer type.
#[inline(never)]
pub fn padded_at(alloc: Global, ty: Option<Ty>, v: Value) -> Result<Value, AllocError>
    ensures { IfOk result (λ made. made ≡ padded_at ty v) }
{
    match ty {
        None => Ok(v),
        Some(t) => {
            let made = padded(alloc, t, v)?;
            Ok(made)
        }
    }
}

/// The value of a hole that was not filled: a hole of no bits has no bits, and no other has one.
#[inline(never)]
#[tactic(auto, using(crate::proofs::Operating::some_bits))]
pub fn unfilled(alloc: Global, span: Span, ty: Option<Ty>) -> Result<Value, Stop>
    ensures { Computes result (unfilled ty span) }
{
    match ty {
        None => Err(Stop::Failed { span }),
        Some(Ty::One(_)) => Err(Stop::Failed { span }),
        Some(Ty::Grid(_, _, _)) => Err(Stop::Failed { span }),
        Some(Ty::Array(Elem::Int, _)) => Err(Stop::Failed { span }),
        Some(Ty::Array(Elem::Reference(_), _)) => Err(Stop::Failed { span }),
        Some(Ty::Array(Elem::Bit, n)) => {
            if n == 0 {
                return Ok(Value::Array(List::new(alloc)));
            }
            Err(Stop::Failed { span })
        }
    }
}

/// The element that an index names.
#[inline(never)]
pub fn indexed(alloc: Global, span: Span, v: &Value, i: &Value) -> Result<Value, Stop>
    ensures { Computes result (indexed span v.now i.now) }
{
    let Value::Int(i) = i else {
        return Err(Stop::Failed { span });
    };
    let Some(found) = element(v, *i) else {
        return Err(Stop::Failed { span });
    };
    let made = copy(alloc, found)?;
    Ok(made)
}

/// So many elements from an index on.
#[inline(never)]
pub fn sliced(alloc: Global, span: Span, n: u32, v: &Value, from: &Value) -> Result<Value, Stop>
    ensures { Computes result (sliced span n v.now from.now) }
{
    let Value::Int(i) = from else {
        return Err(Stop::Failed { span });
    };
    if *i < 0 {
        return Err(Stop::Failed { span });
    }
    let all = elements(v);
    let start = *i as usize;
    let count = n as usize;
    if all.len() < count || all.len() - count < start {
        return Err(Stop::Failed { span });
    }
    let made = copy_all(alloc, &all[start..start + count])?;
    Ok(Value::Array(made))
}
