//! Values: copies, equality, zeros, elements and replaced parts.

ghost use Rattle.std.specs.Prelude.{◌≡◌, IfOk, [], ◌∷◌, ◌++◌, ◌-◌, length, replicate, slice_set, if◌then◌else◌};
ghost use Rattle.std.specs.Ordering.{int_eq};
ghost use Rattle.sk_prog.specs.declared.value.Value.TheVariants as value;
ghost use Rattle.std.specs.Option.{option_copied};
ghost use Rattle.sk_model.specs.Values.{zero_of_elem, zero_of, equal, elements, element, lengthened, padded, is_array, first_is_array, replaced, same_bit};
ghost use Rattle.sk_interp.specs.Paths.{part};

use sk_base::List;
use sk_prog::{Elem, Ty, Value};
use std::alloc::{AllocError, Global};

#[cycle(copy)]
pub fn copy(alloc: Global, v: &Value) -> Result<Value, AllocError>
    ensures { IfOk result (λ made. made ≡ v.now) }
{
    match v {
        Value::Bit(b) => Ok(Value::Bit(*b)),
        Value::Int(n) => Ok(Value::Int(*n)),
        Value::Null => Ok(Value::Null),
        Value::Place(p) => Ok(Value::Place(*p)),
        Value::Array(vs) => {
            let made = copy_all(alloc, vs.as_slice())?;
            Ok(Value::Array(made))
        }
    }
}

#[cycle(copy)]
pub fn copy_all(alloc: Global, vs: &[Value]) -> Result<List<Value>, AllocError>
    ensures { IfOk result (λ made. made ≡ vs.now) }
{
    let mut made = List::new(alloc);
    for v in vs {
        let one = copy(alloc, v)?;
        made.push(one)?;
    }
    Ok(made)
}

#[tactic(auto, using(crate::proofs::Ripples::copy_on))]
/// So many copies of a value behind these.
pub fn with_copies(
    alloc: Global,
    vs: List<Value>,
    v: &Value,
    count: usize,
) -> Result<List<Value>, AllocError>
    ensures { IfOk result (λ made. made ≡ vs ++ replicate count v.now) }
{
    let mut made = vs;
    for _ in 0..count {
        let one = copy(alloc, v)?;
        made.push(one)?;
    }
    Ok(made)
}

pub fn zero_of_elem(elem: Elem) -> Value
    ensures { result ≡ zero_of_elem elem }
{
    match elem {
        Elem::Bit => Value::Bit(false),
        Elem::Int => Value::Int(0),
        Elem::Reference(_) => Value::Null,
    }
}

fn array_of(alloc: Global, v: &Value, count: usize) -> Result<List<Value>, AllocError>
    ensures { IfOk result (λ made. made ≡ replicate count v.now) }
{
    let made = with_copies(alloc, List::new(alloc), v, count)?;
    Ok(made)
}

pub fn zero_of(alloc: Global, ty: Ty) -> Result<Value, AllocError>
    ensures { IfOk result (λ v. v ≡ zero_of ty) }
{
    match ty {
        Ty::One(e) => Ok(zero_of_elem(e)),
        Ty::Array(e, n) => {
            let row = array_of(alloc, &zero_of_elem(e), n as usize)?;
            Ok(Value::Array(row))
        }
        Ty::Grid(e, n, m) => {
            let row = array_of(alloc, &zero_of_elem(e), n as usize)?;
            let rows = array_of(alloc, &Value::Array(row), m as usize)?;
            Ok(Value::Array(rows))
        }
    }
}

pub fn is_array(v: &Value) -> bool
    ensures { result ≡ is_array v.now }
{
    match v {
        Value::Array(_) => true,
        _ => false,
    }
}

pub fn elements(v: &Value) -> &[Value]
    ensures { result.now ≡ elements v.now }
{
    match v {
        Value::Array(vs) => vs.as_slice(),
        _ => &[],
    }
}

pub fn element(v: &Value, i: i64) -> Option<&Value>
    ensures { option_copied result ≡ element v.now i }
{
    if i < 0 {
        return None;
    }
    elements(v).get(i as usize)
}

fn first_is_array(vs: &[Value]) -> bool
    ensures { result ≡ first_is_array vs.now }
{
    match vs {
        [] => false,
        [v, ..] => is_array(v),
    }
}

fn lengthened(alloc: Global, n: u32, zero: &Value, vs: List<Value>) -> Result<Value, AllocError>
    ensures { IfOk result (λ v. v ≡ lengthened n zero.now vs) }
{
    let count = (n as usize).saturating_sub(vs.len());
    let made = with_copies(alloc, vs, zero, count)?;
    Ok(Value::Array(made))
}

fn only(alloc: Global, v: Value) -> Result<List<Value>, AllocError>
    ensures { IfOk result (λ made. made ≡ v ∷ []) }
{
    let mut made = List::new(alloc);
    made.push(v)?;
    Ok(made)
}

/// The elements of an array, or a single value alone.
fn row_of(alloc: Global, v: Value) -> Result<List<Value>, AllocError>
    ensures { IfOk result (λ made. made ≡ (if is_array v then elements v else v ∷ [])) }
{
    match v {
        Value::Array(vs) => Ok(vs),
        v => only(alloc, v),
    }
}

/// The elements of an array of arrays, or any other value alone.
fn rows_of(alloc: Global, v: Value) -> Result<List<Value>, AllocError>
    ensures { IfOk result (λ made. made ≡ (if first_is_array (elements v) then elements v else v ∷ [])) }
{
    if !first_is_array(elements(&v)) {
        return only(alloc, v);
    }
    match v {
        Value::Array(vs) => Ok(vs),
        _ => Ok(List::new(alloc)),
    }
}

pub fn padded(alloc: Global, ty: Ty, v: Value) -> Result<Value, AllocError>
    ensures { IfOk result (λ made. made ≡ padded ty v) }
{
    match ty {
        Ty::One(_) => Ok(v),
        Ty::Array(e, n) => {
            let vs = row_of(alloc, v)?;
            let made = lengthened(alloc, n, &zero_of_elem(e), vs)?;
            Ok(made)
        }
        Ty::Grid(e, n, m) => {
            let vs = rows_of(alloc, v)?;
            let zero = zero_of(alloc, Ty::Array(e, n))?;
            let made = lengthened(alloc, m, &zero, vs)?;
            Ok(made)
        }
    }
}

/// The part of a value that the indexes name, from the outside in.
pub fn part<'a>(v: &'a Value, indexes: &[i64]) -> Option<&'a Value>
    ensures { option_copied result ≡ part indexes.now v.now }
{
    let [i, rest @ ..] = indexes else {
        return Some(v);
    };
    let Some(found) = element(v, *i) else {
        return None;
    };
    part(found, rest)
}

/// The array with one element set.
#[tactic(auto, using(crate::proofs::Memories::set_past))]
fn with_element(alloc: Global, whole: Value, i: usize, new: Value) -> Value
    ensures { result ≡ value.Array (slice_set (elements whole) i new) }
{
    match whole {
        Value::Array(vs) => {
            let mut made = vs;
            if i < made.len() {
                made.set(i, new);
            }
            Value::Array(made)
        }
        _ => Value::Array(List::new(alloc)),
    }
}

/// What `replaced` gives, of a value that is lent: where no index is left it is not looked at.
#[cycle(replaced)]
fn replaced_within(
    alloc: Global,
    indexes: &[i64],
    v: &Value,
    part: Value,
) -> Result<Option<Value>, AllocError>
    ensures { IfOk result (λ made. made ≡ replaced indexes.now v.now part) }
{
    if indexes.is_empty() {
        return Ok(Some(part));
    }
    let whole = copy(alloc, v)?;
    let made = replaced(alloc, indexes, whole, part)?;
    Ok(made)
}

/// The value with the part that the indexes name replaced. Its array is changed in place; an array in that is copied.
#[cycle(replaced)]
pub fn replaced(
    alloc: Global,
    indexes: &[i64],
    whole: Value,
    part: Value,
) -> Result<Option<Value>, AllocError>
    ensures { IfOk result (λ made. made ≡ replaced indexes.now whole part) }
{
    let [i, rest @ ..] = indexes else {
        return Ok(Some(part));
    };
    let Some(old) = element(&whole, *i) else {
        return Ok(None);
    };
    let Some(new) = replaced_within(alloc, rest, old, part)? else {
        return Ok(None);
    };
    Ok(Some(with_element(alloc, whole, *i as usize, new)))
}

fn same_bit(a: bool, b: bool) -> bool
    ensures { result ≡ same_bit a b }
{
    a == b
}

fn same_number(x: i64, y: i64) -> bool
    ensures { result ≡ int_eq x y }
{
    x == y
}

#[cycle(equal)]
pub fn equal(a: &Value, b: &Value) -> bool
    ensures { result ≡ equal a.now b.now }
{
    match a {
        Value::Bit(x) => match b {
            Value::Bit(y) => same_bit(*x, *y),
            _ => false,
        },
        Value::Int(x) => match b {
            Value::Int(y) => same_number(*x, *y),
            _ => false,
        },
        Value::Null => match b {
            Value::Null => true,
            _ => false,
        },
        Value::Place(x) => match b {
            Value::Place(y) => *x == *y,
            _ => false,
        },
        Value::Array(xs) => match b {
            Value::Array(ys) => equal_all(xs.as_slice(), ys.as_slice()),
            _ => false,
        },
    }
}

#[cycle(equal)]
#[tactic(auto, using(crate::proofs::Equal::arrays))]
fn equal_all(xs: &[Value], ys: &[Value]) -> bool
    ensures { result ≡ equal (value.Array xs.now) (value.Array ys.now) }
{
    match xs {
        [] => match ys {
            [] => true,
            _ => false,
        },
        [x, more @ ..] => match ys {
            [] => false,
            [y, others @ ..] => {
                if !equal(x, y) {
                    return false;
                }
                equal_all(more, others)
            }
        },
    }
}
