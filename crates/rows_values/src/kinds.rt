//! Shapes of each form, by a scalar of the input.

use sk_base::List;
use sk_dag::{BoolId, Dag, Shape, Targets};
use smallvec::SmallVec;
use std::alloc::{AllocError, Global};

/// The forms of elements.
#[derive(Clone, Copy)]
pub enum Kind {
    /// Whether the scalar is not 0.
    Bit,
    /// The scalar.
    Int,
    /// A reference to a slot where the scalar is not 0, and else null.
    Reference,
    /// A reference to a slot where the scalar is not 0, and else to slot 8.
    Either,
    /// An array of the bit and the integer.
    Array,
    /// An array of a reference and of an array of the integer.
    Nested,
}

/// The slot of a reference whose scalar is 0.
pub const OTHER: u32 = 8;

const KINDS: &[Kind] = &[
    Kind::Bit,
    Kind::Int,
    Kind::Reference,
    Kind::Either,
    Kind::Array,
    Kind::Nested,
];

/// Each form. Proofs see none of them.
pub fn kinds() -> &'static [Kind] {
    KINDS
}

fn bit(dag: &mut Dag, i: u32) -> Result<Shape, AllocError> {
    let a = dag.input_bit(i)?;
    Ok(Shape::Bit(a))
}

fn int(dag: &mut Dag, i: u32) -> Result<Shape, AllocError> {
    let a = dag.input_word(i)?;
    Ok(Shape::Int(a))
}

fn reference_of(alloc: Global, targets: &[(u32, BoolId)]) -> Result<Shape, AllocError> {
    let slots = SmallVec::from_slice(alloc, targets)?;
    Ok(Shape::Reference(Targets { slots }))
}

fn reference(alloc: Global, dag: &mut Dag, slot: u32, i: u32) -> Result<Shape, AllocError> {
    let guard = dag.input_bit(i)?;
    reference_of(alloc, &[(slot, guard)])
}

fn either(alloc: Global, dag: &mut Dag, slot: u32, i: u32) -> Result<Shape, AllocError> {
    let guard = dag.input_bit(i)?;
    let other = dag.not(guard)?;
    reference_of(alloc, &[(slot, guard), (OTHER, other)])
}

/// An array of one.
fn single(alloc: Global, a: Shape) -> Result<Shape, AllocError> {
    let mut parts = List::new(alloc);
    parts.push(a)?;
    Ok(Shape::Array(parts))
}

/// An array of two.
fn pair(alloc: Global, a: Shape, b: Shape) -> Result<Shape, AllocError> {
    let mut parts = List::new(alloc);
    parts.push(a)?;
    parts.push(b)?;
    Ok(Shape::Array(parts))
}

fn array(alloc: Global, dag: &mut Dag, i: u32) -> Result<Shape, AllocError> {
    let a = bit(dag, i)?;
    let b = int(dag, i)?;
    pair(alloc, a, b)
}

fn nested(alloc: Global, dag: &mut Dag, slot: u32, i: u32) -> Result<Shape, AllocError> {
    let a = reference(alloc, dag, slot, i)?;
    let b = int(dag, i)?;
    let b = single(alloc, b)?;
    pair(alloc, a, b)
}

/// A shape of this form, by a scalar of the input; a reference in it is to this slot.
pub fn element(
    alloc: Global,
    dag: &mut Dag,
    kind: Kind,
    slot: u32,
    i: u32,
) -> Result<Shape, AllocError> {
    match kind {
        Kind::Bit => bit(dag, i),
        Kind::Int => int(dag, i),
        Kind::Reference => reference(alloc, dag, slot, i),
        Kind::Either => either(alloc, dag, slot, i),
        Kind::Array => array(alloc, dag, i),
        Kind::Nested => nested(alloc, dag, slot, i),
    }
}

/// A list of one shape.
pub fn alone(alloc: Global, shape: Shape) -> Result<List<Shape>, AllocError> {
    let mut made = List::new(alloc);
    made.push(shape)?;
    Ok(made)
}

/// A list of one shape of this form, by a scalar of the input; a reference in it is to this slot.
pub fn one(
    alloc: Global,
    dag: &mut Dag,
    kind: Kind,
    slot: u32,
    i: u32,
) -> Result<List<Shape>, AllocError> {
    let shape = element(alloc, dag, kind, slot, i)?;
    alone(alloc, shape)
}

/// So many shapes of this form, by the scalars from `first` on; a reference is to the slot of the number of its scalar.
pub fn elements(
    alloc: Global,
    dag: &mut Dag,
    kind: Kind,
    first: u32,
    count: u32,
) -> Result<List<Shape>, AllocError> {
    let mut made = List::new(alloc);
    for k in 0..count {
        let i = first.wrapping_add(k);
        let one = element(alloc, dag, kind, i, i)?;
        made.push(one)?;
    }
    Ok(made)
}

/// Adds what such a shape is to be seen as: its bits as 0 or 1, its integers, and its references as their slots, or -1
/// where they are null.
pub fn push_wanted(
    want: &mut Vec<i64>,
    kind: Kind,
    slot: u32,
    scalar: i64,
) -> Result<(), AllocError> {
    let bit = (scalar != 0) as i64;
    let target = if scalar == 0 { -1 } else { slot as i64 };
    let other = if scalar == 0 { OTHER } else { slot };
    match kind {
        Kind::Bit => want.extend_from_slice(&[bit]),
        Kind::Int => want.extend_from_slice(&[scalar]),
        Kind::Reference => want.extend_from_slice(&[target]),
        Kind::Either => want.extend_from_slice(&[other as i64]),
        Kind::Array => want.extend_from_slice(&[bit, scalar]),
        Kind::Nested => want.extend_from_slice(&[target, scalar]),
    }
}
