//! What the operators do with values.

ghost use Rattle.std.specs.Prelude.{◌≡◌, ◌≤◌, true, false, pos, int_div, int_rem, IfOk, map, not};
ghost use Rattle.std.specs.Ordering.{int_eq};
ghost use Rattle.sk_model.specs.Operators.{number_operator, bit_operator, bits_operator, shift, operand, on_operands, operator, unary_operator, to_int, bits_of, array_of, divided, pairwise};
ghost use Rattle.sk_base.specs.Word.{wrapped};
ghost use Rattle.sk_interp.specs.Ripple.{of_bits};
ghost use Rattle.sk_interp.specs.Records.{Computes};

use crate::bits::{array_of, bits_of, flipped, moved_down, moved_up, pairwise, sum_of};
use crate::number::{add, divide, multiply, negate, remainder, subtract};
use crate::stop::Stop;
use crate::value::equal;
use sk_base::Span;
use sk_prog::{BinOp, UnOp, Value};
use std::alloc::{AllocError, Global};

fn is_zero(y: i64) -> bool
    ensures { result ≡ int_eq y (pos 0) }
{
    y == 0
}

fn on_numbers(bits: u32, span: Span, op: BinOp, x: &i64, y: &i64) -> Result<Value, Stop>
    requires bits_low { 2 ≤ bits }
    requires bits_high { bits ≤ 32 }
    ensures { Computes result (number_operator bits span op x.now y.now) }
{
    match op {
        BinOp::Add => Ok(Value::Int(add(bits, *x, *y))),
        BinOp::Sub => Ok(Value::Int(subtract(bits, *x, *y))),
        BinOp::Mul => Ok(Value::Int(multiply(bits, *x, *y))),
        BinOp::Div => quotient(bits, span, x, y),
        BinOp::Rem => left_over(bits, span, x, y),
        BinOp::Lt => Ok(Value::Bit(*x < *y)),
        BinOp::Le => Ok(Value::Bit(*x <= *y)),
        BinOp::Gt => Ok(Value::Bit(*y < *x)),
        BinOp::Ge => Ok(Value::Bit(*y <= *x)),
        _ => Err(Stop::Failed { span }),
    }
}

#[tactic(auto, using(crate::proofs::Operating::division))]
fn quotient(bits: u32, span: Span, x: &i64, y: &i64) -> Result<Value, Stop>
    requires bits_low { 2 ≤ bits }
    requires bits_high { bits ≤ 32 }
    ensures { Computes result (divided span y.now (wrapped bits (int_div x.now y.now))) }
{
    if is_zero(*y) {
        return Err(Stop::Failed { span });
    }
    Ok(Value::Int(divide(bits, *x, *y)))
}

#[tactic(auto, using(crate::proofs::Operating::division))]
fn left_over(bits: u32, span: Span, x: &i64, y: &i64) -> Result<Value, Stop>
    requires bits_low { 2 ≤ bits }
    requires bits_high { bits ≤ 32 }
    ensures { Computes result (divided span y.now (wrapped bits (int_rem x.now y.now))) }
{
    if is_zero(*y) {
        return Err(Stop::Failed { span });
    }
    Ok(Value::Int(remainder(bits, *x, *y)))
}

fn on_bits(span: Span, op: BinOp, a: bool, b: bool) -> Result<Value, Stop>
    ensures { Computes result (bit_operator span op a b) }
{
    match op {
        BinOp::And => Ok(Value::Bit(a && b)),
        BinOp::Or => Ok(Value::Bit(a || b)),
        BinOp::Xor => Ok(Value::Bit(a != b)),
        _ => Err(Stop::Failed { span }),
    }
}

fn bitwise(alloc: Global, op: BinOp, a: &[bool], b: &[bool]) -> Result<Value, AllocError>
    ensures { IfOk result (λ made. made ≡ array_of (pairwise (of_bits op) a.now b.now)) }
{
    let bits = pairwise(alloc, op, a, b)?;
    let made = array_of(alloc, bits.as_slice())?;
    Ok(made)
}

fn on_arrays(alloc: Global, span: Span, op: BinOp, a: &[bool], b: &[bool]) -> Result<Value, Stop>
    ensures { Computes result (bits_operator span op a.now b.now) }
{
    match op {
        BinOp::Add => {
            let bits = sum_of(alloc, a, b)?;
            let made = array_of(alloc, bits.as_slice())?;
            Ok(made)
        }
        BinOp::And => {
            let made = bitwise(alloc, BinOp::And, a, b)?;
            Ok(made)
        }
        BinOp::Or => {
            let made = bitwise(alloc, BinOp::Or, a, b)?;
            Ok(made)
        }
        BinOp::Xor => {
            let made = bitwise(alloc, BinOp::Xor, a, b)?;
            Ok(made)
        }
        _ => Err(Stop::Failed { span }),
    }
}

fn shifted(alloc: Global, span: Span, op: BinOp, a: &[bool], n: &i64) -> Result<Value, Stop>
    ensures { Computes result (shift span op a.now n.now) }
{
    if *n < 0 {
        return Err(Stop::Failed { span });
    }
    match op {
        BinOp::Shl => {
            let bits = moved_up(alloc, *n as usize, a)?;
            let made = array_of(alloc, bits.as_slice())?;
            Ok(made)
        }
        BinOp::Shr => {
            let bits = moved_down(alloc, *n as usize, a)?;
            let made = array_of(alloc, bits.as_slice())?;
            Ok(made)
        }
        _ => Err(Stop::Failed { span }),
    }
}

fn on_array_and_array(
    alloc: Global,
    span: Span,
    op: BinOp,
    v: &Value,
    w: &Value,
) -> Result<Value, Stop>
    ensures { Computes result (bits_operator span op (bits_of v.now) (bits_of w.now)) }
{
    let a = bits_of(alloc, v)?;
    let b = bits_of(alloc, w)?;
    let made = on_arrays(alloc, span, op, a.as_slice(), b.as_slice())?;
    Ok(made)
}

fn on_array_and_number(
    alloc: Global,
    span: Span,
    op: BinOp,
    v: &Value,
    n: &i64,
) -> Result<Value, Stop>
    ensures { Computes result (shift span op (bits_of v.now) n.now) }
{
    let a = bits_of(alloc, v)?;
    shifted(alloc, span, op, a.as_slice(), n)
}

fn on_operands(
    alloc: Global,
    bits: u32,
    span: Span,
    op: BinOp,
    v: &Value,
    w: &Value,
) -> Result<Value, Stop>
    requires bits_low { 2 ≤ bits }
    requires bits_high { bits ≤ 32 }
    ensures { Computes result (on_operands bits span op (operand v.now) (operand w.now)) }
{
    match v {
        Value::Int(x) => match w {
            Value::Int(y) => on_numbers(bits, span, op, x, y),
            _ => Err(Stop::Failed { span }),
        },
        Value::Bit(a) => match w {
            Value::Bit(b) => on_bits(span, op, *a, *b),
            _ => Err(Stop::Failed { span }),
        },
        Value::Array(_) => match w {
            Value::Array(_) => on_array_and_array(alloc, span, op, v, w),
            Value::Int(n) => on_array_and_number(alloc, span, op, v, n),
            _ => Err(Stop::Failed { span }),
        },
        _ => Err(Stop::Failed { span }),
    }
}

/// A binary operator.
#[inline(never)]
pub fn operator(
    alloc: Global,
    bits: u32,
    span: Span,
    op: BinOp,
    v: &Value,
    w: &Value,
) -> Result<Value, Stop>
    requires bits_low { 2 ≤ bits }
    requires bits_high { bits ≤ 32 }
    ensures { Computes result (operator bits span op v.now w.now) }
{
    match op {
        BinOp::Eq => Ok(Value::Bit(equal(v, w))),
        BinOp::Ne => Ok(Value::Bit(!equal(v, w))),
        _ => on_operands(alloc, bits, span, op, v, w),
    }
}

fn flipped_array(alloc: Global, v: &Value) -> Result<Value, AllocError>
    ensures { IfOk result (λ made. made ≡ array_of (map not (bits_of v.now))) }
{
    let a = bits_of(alloc, v)?;
    let bits = flipped(alloc, a.as_slice())?;
    let made = array_of(alloc, bits.as_slice())?;
    Ok(made)
}

/// A unary operator.
#[inline(never)]
pub fn unary_operator(
    alloc: Global,
    bits: u32,
    span: Span,
    op: UnOp,
    v: &Value,
) -> Result<Value, Stop>
    requires bits_low { 2 ≤ bits }
    requires bits_high { bits ≤ 32 }
    ensures { Computes result (unary_operator bits span op v.now) }
{
    match v {
        Value::Bit(b) => match op {
            UnOp::Neg => Err(Stop::Failed { span }),
            _ => Ok(Value::Bit(!*b)),
        },
        Value::Int(n) => match op {
            UnOp::Neg => Ok(Value::Int(negate(bits, *n))),
            _ => Err(Stop::Failed { span }),
        },
        Value::Array(_) => match op {
            UnOp::Flip => {
                let made = flipped_array(alloc, v)?;
                Ok(made)
            }
            _ => Err(Stop::Failed { span }),
        },
        _ => Err(Stop::Failed { span }),
    }
}

/// The coercion of a bit to an integer.
pub fn to_int(span: Span, v: &Value) -> Result<Value, Stop>
    ensures { Computes result (to_int span v.now) }
{
    match v {
        Value::Bit(b) => Ok(Value::Int(if *b { 1 } else { 0 })),
        _ => Err(Stop::Failed { span }),
    }
}
