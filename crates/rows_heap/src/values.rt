//! Values beside a heap, each with its type.

ghost use Rattle.std.specs.Prelude.{◌≡◌, List, Some, IfOk, IfSome, IsTrue, slice_get};
ghost use Rattle.sk_base.specs.Word.{IsWord};
ghost use Rattle.sk_dag.specs.Graph.{Graph, HasBool};
ghost use Rattle.sk_dag.specs.Eval.{Keeps};
ghost use Rattle.sk_prog.specs.Fits.{has_struct};
ghost use Rattle.sk_heap.specs.declared.slot.Slot.{Slot};
ghost use Rattle.sk_heap.specs.Types.{fields_of, field_types};
ghost use Rattle.sk_heap.specs.Heaps.{RefersTo};
ghost use Rattle.rows_heap.specs.Worlds.{IsValue, AreValues, IsPairOf};

use sk_arr::copy_shape;
use sk_base::{List, wrap};
use sk_dag::{BoolId, Dag, Shape, Targets};
use sk_prog::{Elem, FieldDef, Prog, StructId, Ty};
use smallvec::SmallVec;
use std::alloc::{AllocError, Global};

/// A value that stands on no other.
#[derive(Clone, Copy, PartialEq, Eq, Debug)]
pub enum Given {
    Flag(bool),
    InputBit(u32),
    Word(i64),
    InputWord(u32),
    Null(StructId),
}

/// Whether a word of this width is this number.
fn is_word(bits: u32, number: i64) -> bool
    ensures { IsTrue result → IsWord bits number }
{
    bits >= 2 && bits <= 32 && wrap(bits, number) == number
}

/// A type, and a shape of it.
#[derive(Drop)]
pub struct Typed {
    pub of: Ty,
    pub shape: Shape,
}

/// The value that is given. An error stands for want of memory, and for a number that is no word of the graph.
#[tactic(auto, using(crate::proofs::ValueLaws::givens))]
pub fn value_given(alloc: Global, dag: &mut Dag, what: Given) -> Result<Typed, AllocError>
    ensures keeps { Keeps dag.old dag.new }
    ensures value { IfOk result (λ v. (heap : List Slot) → IsValue dag.new heap v.of v.shape) }
{
    match what {
        Given::Flag(value) => {
            let id = dag.flag(value)?;
            Ok(Typed {
                of: Ty::One(Elem::Bit),
                shape: Shape::Bit(id),
            })
        }
        Given::InputBit(scalar) => {
            let id = dag.input_bit(scalar)?;
            Ok(Typed {
                of: Ty::One(Elem::Bit),
                shape: Shape::Bit(id),
            })
        }
        Given::Word(number) => {
            if !is_word(dag.int_bits(), number) {
                return Err(AllocError);
            }
            let id = dag.word(number)?;
            Ok(Typed {
                of: Ty::One(Elem::Int),
                shape: Shape::Int(id),
            })
        }
        Given::InputWord(scalar) => {
            let id = dag.input_word(scalar)?;
            Ok(Typed {
                of: Ty::One(Elem::Int),
                shape: Shape::Int(id),
            })
        }
        Given::Null(of) => {
            let slots = SmallVec::new(alloc);
            Ok(Typed {
                of: Ty::One(Elem::Reference(of)),
                shape: Shape::Reference(Targets { slots }),
            })
        }
    }
}

/// The type of an array of two values of a type.
pub fn pair_of(ty: Ty) -> Option<Ty>
    ensures { IfSome result (λ pair. IsPairOf ty pair) }
{
    match ty {
        Ty::One(elem) => Some(Ty::Array(elem, 2)),
        Ty::Array(elem, count) => Some(Ty::Grid(elem, count, 2)),
        Ty::Grid(_, _, _) => None,
    }
}

/// An array of two values of a type.
pub fn paired(alloc: Global, first: &Shape, second: &Shape) -> Result<Shape, AllocError>
    ensures { IfOk result (λ r. (g : Graph) (heap : List Slot) (t pair : Ty) → IsPairOf t pair → IsValue g heap t first.now → IsValue g heap t second.now → IsValue g heap pair r) }
{
    let first = copy_shape(alloc, first)?;
    let second = copy_shape(alloc, second)?;
    let mut parts = List::new(alloc);
    parts.push(first)?;
    parts.push(second)?;
    Ok(Shape::Array(parts))
}

/// The type of a value.
pub fn type_at(values: &List<(Ty, Shape)>, number: usize) -> Option<Ty> {
    let all = values.as_slice();
    if number >= all.len() {
        return None;
    }
    Some(all[number].0)
}

/// Whether two types are one.
fn is_type(a: Ty, b: Ty) -> bool
    ensures { IsTrue result → a ≡ b }
{
    a == b
}

/// A value of this type.
pub fn value_at(values: &List<(Ty, Shape)>, number: usize, ty: Ty) -> Option<&Shape>
    ensures { (g : Graph) (heap : List Slot) → AreValues g heap values.now → IfSome result (λ r. IsValue g heap ty r.now) }
{
    let all = values.as_slice();
    if number >= all.len() {
        return None;
    }
    let value = &all[number];
    if !is_type(value.0, ty) {
        return None;
    }
    Some(&value.1)
}

/// A value that is a bit.
pub fn bit_at(values: &List<(Ty, Shape)>, number: usize) -> Option<BoolId>
    ensures { (g : Graph) (heap : List Slot) → AreValues g heap values.now → IfSome result (λ a. HasBool g.nodes a) }
{
    let shape = value_at(values, number, Ty::One(Elem::Bit))?;
    match shape {
        Shape::Bit(id) => Some(*id),
        _ => None,
    }
}

/// The struct that a reference may refer to.
fn struct_at(values: &List<(Ty, Shape)>, number: usize) -> Option<StructId> {
    let ty = type_at(values, number)?;
    match ty {
        Ty::One(Elem::Reference(of)) => Some(of),
        _ => None,
    }
}

/// A reference, and the struct that it refers to.
#[derive(Clone, Copy)]
pub struct Target<'a> {
    pub of: StructId,
    pub targets: &'a Targets,
}

/// A value that is a reference.
pub fn target_at<'a>(values: &'a List<(Ty, Shape)>, number: usize) -> Option<Target<'a>>
    ensures { (g : Graph) (heap : List Slot) → AreValues g heap values.now → IfSome result (λ t. RefersTo g heap t.of t.targets.now) }
{
    let of = struct_at(values, number)?;
    let shape = value_at(values, number, Ty::One(Elem::Reference(of)))?;
    match shape {
        Shape::Reference(targets) => Some(Target { of, targets }),
        _ => None,
    }
}

/// The fields of a struct.
#[tactic(auto, using(sk_heap::proofs::Structs::structs))]
fn fields_of(prog: &Prog, of: StructId) -> &[FieldDef]
    requires { IsTrue (has_struct prog.now of) }
    ensures { result.now ≡ fields_of prog.now of }
{
    prog.structs.as_slice()[of.index as usize].fields.as_slice()
}

/// The type of a field.
#[tactic(auto, using(sk_heap::proofs::Structs::structs))]
pub fn field_type(prog: &Prog, of: StructId, field: u32) -> Option<Ty>
    ensures { IfSome result (λ t. slice_get (field_types prog.now of) field ≡ Some t) }
{
    if of.index as usize >= prog.structs.len() {
        return None;
    }
    let fields = fields_of(prog, of);
    if field as usize >= fields.len() {
        return None;
    }
    Some(fields[field as usize].ty)
}
