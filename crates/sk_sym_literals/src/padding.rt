//! Values made longer.

ghost use Rattle.std.specs.Prelude.{◌≡◌, ◌∷◌, [], IfOk, if◌then◌else◌};
ghost use Rattle.sk_dag.specs.declared.shape.Shape.TheVariants as shape;
ghost use Rattle.sk_dag.specs.Eval.{Keeps};
ghost use Rattle.sk_arr.specs.Shapes.{Stands, AllStand};
ghost use Rattle.sk_arr.specs.Answers.{IsPadded};
ghost use Rattle.sk_model.specs.Values.{zero_of as zero_of_type, padded as padded_of};
ghost use Rattle.sk_model.specs.Eval.{padded_at as padded_at_of};
ghost use Rattle.sk_prog.specs.declared.ty.Ty.TheVariants as ty;
ghost use Rattle.sk_sym_literals.specs.Rows.{is_row, first_is_row, row_of, rows_of};
ghost use Rattle.sk_sym_literals.specs.Given.{IsGiven, IsMade, IsLengthened};

use crate::given::zero_of_elem;
use sk_arr::pad;
use sk_base::List;
use sk_dag::{Dag, Shape};
use sk_prog::{Elem, Ty};
use std::alloc::{AllocError, Global};

/// Whether a shape is an array.
fn is_row(s: &Shape) -> bool
    ensures { result ≡ is_row s.now }
{
    match s {
        Shape::Array(_) => true,
        _ => false,
    }
}

fn first_is_row(list: &[Shape]) -> bool
    ensures { result ≡ first_is_row list.now }
{
    match list {
        [] => false,
        [s, ..] => is_row(s),
    }
}

fn only(alloc: Global, s: Shape) -> Result<List<Shape>, AllocError>
    ensures { IfOk result (λ made. made ≡ s ∷ []) }
{
    let mut made = List::new(alloc);
    made.push(s)?;
    Ok(made)
}

/// The elements of an array, or any other shape alone.
fn row_of(alloc: Global, s: Shape) -> Result<List<Shape>, AllocError>
    ensures { IfOk result (λ made. made ≡ row_of s) }
{
    match s {
        Shape::Array(list) => Ok(list),
        s => only(alloc, s),
    }
}

/// The elements of an array whose first element is an array, or that array alone.
fn rows_in(alloc: Global, list: List<Shape>) -> Result<List<Shape>, AllocError>
    ensures { IfOk result (λ made. made ≡ (if first_is_row list then list else shape.Array list ∷ [])) }
{
    if first_is_row(list.as_slice()) {
        return Ok(list);
    }
    only(alloc, Shape::Array(list))
}

/// The elements of an array of arrays, or any other shape alone.
fn rows_of(alloc: Global, s: Shape) -> Result<List<Shape>, AllocError>
    ensures { IfOk result (λ made. made ≡ rows_of s) }
{
    match s {
        Shape::Array(list) => rows_in(alloc, list),
        s => only(alloc, s),
    }
}

/// So many zeros.
fn zeros_of(
    alloc: Global,
    dag: &mut Dag,
    zero: &Shape,
    count: u32,
) -> Result<List<Shape>, AllocError>
    requires { Stands dag.old zero.now }
    ensures keeps { Keeps dag.old dag.new }
    ensures zeros { IfOk result (λ made. IsPadded dag.new [] zero.now count made) }
{
    let none = List::new(alloc);
    let made = pad(alloc, dag, &none, zero, count)?;
    Ok(made)
}

/// An array of these and of as many zeros as are wanting to so many.
fn lengthened(
    alloc: Global,
    dag: &mut Dag,
    count: u32,
    zero: &Shape,
    list: List<Shape>,
) -> Result<Shape, AllocError>
    requires zero { Stands dag.old zero.now }
    requires list { AllStand dag.old list }
    ensures keeps { Keeps dag.old dag.new }
    ensures made { IfOk result (λ r. IsLengthened dag.new list zero.now count r) }
{
    if list.len() >= count as usize {
        return Ok(Shape::Array(list));
    }
    let wanting = count - list.len() as u32;
    let mut made = list;
    let zeros = zeros_of(alloc, dag, zero, wanting)?;
    made.append(zeros)?;
    Ok(Shape::Array(made))
}

/// The 0 of an array.
pub(crate) fn zero_row(
    alloc: Global,
    dag: &mut Dag,
    elem: Elem,
    count: u32,
) -> Result<Shape, AllocError>
    ensures keeps { Keeps dag.old dag.new }
    ensures given { IfOk result (λ r. IsGiven dag.new (zero_of_type (ty.Array elem count)) r) }
{
    let zero = zero_of_elem(alloc, dag, elem)?;
    let none = List::new(alloc);
    let r = lengthened(alloc, dag, count, &zero, none)?;
    Ok(r)
}

/// The 0 of an array of arrays.
pub(crate) fn zero_grid(
    alloc: Global,
    dag: &mut Dag,
    elem: Elem,
    count: u32,
    rows: u32,
) -> Result<Shape, AllocError>
    ensures keeps { Keeps dag.old dag.new }
    ensures given { IfOk result (λ r. IsGiven dag.new (zero_of_type (ty.Grid elem count rows)) r) }
{
    let zero = zero_row(alloc, dag, elem, count)?;
    let none = List::new(alloc);
    let r = lengthened(alloc, dag, rows, &zero, none)?;
    Ok(r)
}

/// A value as an array of single values.
pub(crate) fn padded_row(
    alloc: Global,
    dag: &mut Dag,
    elem: Elem,
    count: u32,
    a: Shape,
) -> Result<Shape, AllocError>
    requires a { Stands dag.old a }
    ensures keeps { Keeps dag.old dag.new }
    ensures made { IfOk result (λ r. IsMade dag.new a (padded_of (ty.Array elem count)) r) }
{
    let zero = zero_of_elem(alloc, dag, elem)?;
    let list = row_of(alloc, a)?;
    let r = lengthened(alloc, dag, count, &zero, list)?;
    Ok(r)
}

/// A value as an array of arrays.
pub(crate) fn padded_grid(
    alloc: Global,
    dag: &mut Dag,
    elem: Elem,
    count: u32,
    rows: u32,
    a: Shape,
) -> Result<Shape, AllocError>
    requires a { Stands dag.old a }
    ensures keeps { Keeps dag.old dag.new }
    ensures made { IfOk result (λ r. IsMade dag.new a (padded_of (ty.Grid elem count rows)) r) }
{
    let zero = zero_row(alloc, dag, elem, count)?;
    let list = rows_of(alloc, a)?;
    let r = lengthened(alloc, dag, rows, &zero, list)?;
    Ok(r)
}

/// A value as one of a type.
fn padded_to(alloc: Global, dag: &mut Dag, ty: Ty, a: Shape) -> Result<Shape, AllocError>
    requires a { Stands dag.old a }
    ensures keeps { Keeps dag.old dag.new }
    ensures made { IfOk result (λ r. IsMade dag.new a (padded_of ty) r) }
{
    match ty {
        Ty::One(_) => Ok(a),
        Ty::Array(elem, count) => {
            let r = padded_row(alloc, dag, elem, count, a)?;
            Ok(r)
        }
        Ty::Grid(elem, count, rows) => {
            let r = padded_grid(alloc, dag, elem, count, rows, a)?;
            Ok(r)
        }
    }
}

/// A value as one of a longer type. One that is longer than the type stays.
///
/// # Errors
///
/// Memory is wanting. After a refusal the graph has all nodes that it had (`keeps`).
pub fn padded_at(
    alloc: Global,
    dag: &mut Dag,
    ty: Option<Ty>,
    a: Shape,
) -> Result<Shape, AllocError>
    requires a { Stands dag.old a }
    ensures keeps { Keeps dag.old dag.new }
    ensures made { IfOk result (λ r. IsMade dag.new a (padded_at_of ty) r) }
{
    match ty {
        None => Ok(a),
        Some(ty) => {
            let r = padded_to(alloc, dag, ty, a)?;
            Ok(r)
        }
    }
}
