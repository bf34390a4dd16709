//! The calls of a heap, on values that are named by their numbers. An error stands for want of memory, and for numbers of
//! which there are no values of the types that are wanted.

ghost use Rattle.std.specs.Prelude.{IfOk};
ghost use Rattle.sk_dag.specs.Graph.{HasBool};
ghost use Rattle.sk_dag.specs.declared.shape.Shape.TheVariants as shape;
ghost use Rattle.sk_prog.specs.declared.ty.Elem.TheVariants as elem;
ghost use Rattle.sk_prog.specs.declared.ty.Ty.TheVariants as ty;
ghost use Rattle.sk_heap.specs.Heaps.{HeapStands};
ghost use Rattle.rows_heap.specs.Worlds.{IsValue, AreValues};

use crate::values::{Typed, bit_at, field_type, pair_of, paired, target_at, type_at, value_at};
use sk_arr::choose;
use sk_base::List;
use sk_dag::{BoolId, Dag, Shape, Targets};
use sk_heap::SymHeap;
use sk_prog::{Prog, StructId, Ty};
use std::alloc::{AllocError, Global};

/// An array of two values of a type.
#[tactic(auto, using(crate::proofs::WorldLaws::worlds))]
pub fn pair(
    alloc: Global,
    dag: &Dag,
    heap: &SymHeap,
    values: &List<(Ty, Shape)>,
    first: usize,
    second: usize,
) -> Result<Typed, AllocError>
    requires { AreValues dag.now heap.now values.now }
    ensures { IfOk result (λ v. IsValue dag.now heap.now v.of v.shape) }
{
    let Some(ty) = type_at(values, first) else {
        return Err(AllocError);
    };
    let Some(of) = pair_of(ty) else {
        return Err(AllocError);
    };
    let Some(first) = value_at(values, first, ty) else {
        return Err(AllocError);
    };
    let Some(second) = value_at(values, second, ty) else {
        return Err(AllocError);
    };
    let shape = paired(alloc, first, second)?;
    Ok(Typed { of, shape })
}

/// A value that is the one where a bit holds, and the other where it does not.
#[tactic(auto, using(crate::proofs::WorldLaws::worlds))]
pub fn chosen(
    alloc: Global,
    dag: &mut Dag,
    prog: &Prog,
    heap: &SymHeap,
    values: &List<(Ty, Shape)>,
    when: usize,
    yes: usize,
    no: usize,
) -> Result<Typed, AllocError>
    requires heap { HeapStands dag.old prog.now heap.now }
    requires values { AreValues dag.old heap.now values.now }
    ensures heap { HeapStands dag.new prog.now heap.now }
    ensures values { AreValues dag.new heap.now values.now }
    ensures value { IfOk result (λ v. IsValue dag.new heap.now v.of v.shape) }
{
    let Some(when) = bit_at(values, when) else {
        return Err(AllocError);
    };
    let Some(of) = type_at(values, yes) else {
        return Err(AllocError);
    };
    let Some(yes) = value_at(values, yes, of) else {
        return Err(AllocError);
    };
    let Some(no) = value_at(values, no, of) else {
        return Err(AllocError);
    };
    let shape = choose(alloc, dag, when, yes, no)?;
    Ok(Typed { of, shape })
}

/// A reference to a new slot.
#[tactic(auto, using(crate::proofs::WorldLaws::worlds))]
pub fn allocated(
    alloc: Global,
    dag: &mut Dag,
    prog: &Prog,
    heap: &mut SymHeap,
    values: &List<(Ty, Shape)>,
    guard: usize,
    of: StructId,
) -> Result<Targets, AllocError>
    requires heap { HeapStands dag.old prog.now heap.old }
    requires values { AreValues dag.old heap.old values.now }
    ensures heap { HeapStands dag.new prog.now heap.new }
    ensures values { AreValues dag.new heap.new values.now }
    ensures value { IfOk result (λ r. IsValue dag.new heap.new (ty.One (elem.Reference of)) (shape.Reference r)) }
{
    let Some(guard) = bit_at(values, guard) else {
        return Err(AllocError);
    };
    if heap.slots() >= 256 {
        return Err(AllocError);
    }
    if of.index as usize >= prog.structs.len() {
        return Err(AllocError);
    }
    let r = heap.alloc_under(alloc, dag, prog, guard, of)?;
    Ok(r)
}

/// A field that was read, and whether the reference was null.
#[derive(Drop)]
pub struct FieldRead {
    pub of: Ty,
    pub shape: Shape,
    pub null: BoolId,
}

/// A field of the slot that a reference is at.
#[tactic(auto, using(crate::proofs::WorldLaws::worlds))]
pub fn field_read(
    alloc: Global,
    dag: &mut Dag,
    prog: &Prog,
    heap: &SymHeap,
    values: &List<(Ty, Shape)>,
    target: usize,
    field: u32,
) -> Result<FieldRead, AllocError>
    requires heap { HeapStands dag.old prog.now heap.now }
    requires values { AreValues dag.old heap.now values.now }
    ensures heap { HeapStands dag.new prog.now heap.now }
    ensures values { AreValues dag.new heap.now values.now }
    ensures value { IfOk result (λ r. IsValue dag.new heap.now r.of r.shape) }
    ensures null { IfOk result (λ r. HasBool dag.new.nodes r.null) }
{
    let Some(target) = target_at(values, target) else {
        return Err(AllocError);
    };
    let Some(of) = field_type(prog, target.of, field) else {
        return Err(AllocError);
    };
    let found = heap.read_field(alloc, dag, prog, target.of, target.targets, field)?;
    Ok(FieldRead {
        of,
        shape: found.0,
        null: found.1,
    })
}

/// Writes a value to a field of the slot that a reference is at: whether the reference was null.
#[tactic(auto, using(crate::proofs::WorldLaws::worlds))]
pub fn put(
    alloc: Global,
    dag: &mut Dag,
    prog: &Prog,
    heap: &mut SymHeap,
    values: &List<(Ty, Shape)>,
    guard: usize,
    target: usize,
    field: u32,
    value: usize,
) -> Result<BoolId, AllocError>
    requires heap { HeapStands dag.old prog.now heap.old }
    requires values { AreValues dag.old heap.old values.now }
    ensures heap { HeapStands dag.new prog.now heap.new }
    ensures values { AreValues dag.new heap.new values.now }
    ensures null { IfOk result (λ r. HasBool dag.new.nodes r) }
{
    let Some(guard) = bit_at(values, guard) else {
        return Err(AllocError);
    };
    let Some(target) = target_at(values, target) else {
        return Err(AllocError);
    };
    let Some(ty) = field_type(prog, target.of, field) else {
        return Err(AllocError);
    };
    let Some(value) = value_at(values, value, ty) else {
        return Err(AllocError);
    };
    let null = heap.write_field_under(alloc, dag, guard, target.targets, field, value)?;
    Ok(null)
}
