//! Arrays of bits as numbers: what the operators do with them.

ghost use Rattle.std.specs.Prelude.{◌≡◌, false, IfOk, map, not, take, drop, replicate, min, length, ◌++◌, ◌-◌};
ghost use Rattle.sk_model.specs.Operators.{bit, bits_of, array_of, sum_of, pairwise, moved_up, moved_down};
ghost use Rattle.sk_interp.specs.Ripple.{sum_bit, carry_bit, first_bit, after_bit, of_bits};

use crate::value::elements;
use sk_base::List;
use sk_prog::{BinOp, Value};
use std::alloc::{AllocError, Global};

fn bit(v: &Value) -> bool
    ensures { result ≡ bit v.now }
{
    match v {
        Value::Bit(b) => *b,
        _ => false,
    }
}

/// The bits of an array, index 0 first.
pub fn bits_of(alloc: Global, v: &Value) -> Result<Vec<bool>, AllocError>
    ensures { IfOk result (λ made. made.items ≡ bits_of v.now) }
{
    let mut made = Vec::new(alloc);
    for v in elements(v) {
        made.push(bit(v))?;
    }
    Ok(made)
}

pub fn array_of(alloc: Global, bits: &[bool]) -> Result<Value, AllocError>
    ensures { IfOk result (λ made. made ≡ array_of bits.now) }
{
    let mut made = List::new(alloc);
    for b in bits {
        made.push(Value::Bit(*b))?;
    }
    Ok(Value::Array(made))
}

/// The least bit, 0 where there is none.
fn first_bit(bits: &[bool]) -> bool
    ensures { result ≡ first_bit bits.now }
{
    match bits {
        [] => false,
        [b, ..] => *b,
    }
}

/// The bits after the least.
fn after_bit(bits: &[bool]) -> &[bool]
    ensures { result.now ≡ after_bit bits.now }
{
    match bits {
        [] => bits,
        [_, more @ ..] => more,
    }
}

fn sum_bit(x: bool, y: bool, c: bool) -> bool
    ensures { result ≡ sum_bit x y c }
{
    (x != y) != c
}

fn carry_bit(x: bool, y: bool, c: bool) -> bool
    ensures { result ≡ carry_bit x y c }
{
    (x && y) || (c && x != y)
}

#[tactic(auto, using(crate::proofs::Ripples::sum_is))]
pub fn sum_of(alloc: Global, a: &[bool], b: &[bool]) -> Result<Vec<bool>, AllocError>
    ensures { IfOk result (λ made. made.items ≡ sum_of a.now b.now) }
{
    let mut made = Vec::new(alloc);
    let mut rest = b;
    let mut carry = false;
    for x in a {
        let y = first_bit(rest);
        made.push(sum_bit(*x, y, carry))?;
        carry = carry_bit(*x, y, carry);
        rest = after_bit(rest);
    }
    Ok(made)
}

fn of_bits(op: BinOp, x: bool, y: bool) -> bool
    ensures { result ≡ of_bits op x y }
{
    match op {
        BinOp::And => x && y,
        BinOp::Or => x || y,
        _ => x != y,
    }
}

fn shorter(a: usize, b: usize) -> usize
    ensures { result ≡ min a b }
{
    if a < b { a } else { b }
}

pub fn pairwise(alloc: Global, op: BinOp, a: &[bool], b: &[bool]) -> Result<Vec<bool>, AllocError>
    ensures { IfOk result (λ made. made.items ≡ pairwise (of_bits op) a.now b.now) }
{
    let mut made = Vec::new(alloc);
    let mut rest = b;
    for x in a {
        let [y, others @ ..] = rest else {
            return Ok(made);
        };
        made.push(of_bits(op, *x, *y))?;
        rest = others;
    }
    Ok(made)
}

pub fn flipped(alloc: Global, a: &[bool]) -> Result<Vec<bool>, AllocError>
    ensures { IfOk result (λ made. made.items ≡ map not a.now) }
{
    let mut made = Vec::new(alloc);
    for b in a {
        made.push(!*b)?;
    }
    Ok(made)
}

#[tactic(auto, using(crate::proofs::Ripples::copy_on))]
fn with_zeros(bits: Vec<bool>, count: usize) -> Result<Vec<bool>, AllocError>
    ensures { IfOk result (λ made. made.items ≡ bits.items ++ replicate count false) }
{
    let mut made = bits;
    for _ in 0..count {
        made.push(false)?;
    }
    Ok(made)
}

fn with_bits(bits: Vec<bool>, more: &[bool]) -> Result<Vec<bool>, AllocError>
    ensures { IfOk result (λ made. made.items ≡ bits.items ++ more.now) }
{
    let mut made = bits;
    made.extend_from_slice(more)?;
    Ok(made)
}

pub fn moved_up(alloc: Global, n: usize, a: &[bool]) -> Result<Vec<bool>, AllocError>
    ensures { IfOk result (λ made. made.items ≡ moved_up n a.now) }
{
    let count = shorter(n, a.len());
    let zeros = with_zeros(Vec::new(alloc), count)?;
    let made = with_bits(zeros, &a[..a.len() - count])?;
    Ok(made)
}

pub fn moved_down(alloc: Global, n: usize, a: &[bool]) -> Result<Vec<bool>, AllocError>
    ensures { IfOk result (λ made. made.items ≡ moved_down n a.now) }
{
    let count = shorter(n, a.len());
    let kept = with_bits(Vec::new(alloc), &a[count..])?;
    let made = with_zeros(kept, count)?;
    Ok(made)
}
