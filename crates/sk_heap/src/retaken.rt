//! Slots that are taken once more.

ghost use Rattle.std.specs.Prelude.{◌≡◌, IfOk, IsTrue, map};
ghost use Rattle.sk_dag.specs.Graph.{HasBool};
ghost use Rattle.sk_dag.specs.Eval.{Keeps};
ghost use Rattle.sk_arr.specs.Shapes.{blank, AllStand};
ghost use Rattle.sk_prog.specs.Fits.{has_struct};
ghost use Rattle.sk_heap.specs.Heaps.{is_of, HeapStands};
ghost use Rattle.sk_heap.specs.Retakes.{AreChosen, IsRefilledAt};

use crate::fields::fields_of;
use crate::slot::{Slot, slot_at};
use crate::zero::zero_fields;
use sk_arr::{choose, either};
use sk_base::List;
use sk_dag::{BoolId, Dag, Shape};
use sk_prog::{Prog, StructId};
use std::alloc::{AllocError, Global};

/// The first shapes where the guard holds, and else the others, one by one.
fn chosen(
    alloc: Global,
    dag: &mut Dag,
    guard: BoolId,
    list: &[Shape],
    others: &[Shape],
) -> Result<List<Shape>, AllocError>
    requires guard { HasBool dag.old.nodes guard }
    requires list { AllStand dag.old list.now }
    requires others { AllStand dag.old others.now }
    requires alike { map blank list.now ≡ map blank others.now }
    ensures keeps { Keeps dag.old dag.new }
    ensures chosen { IfOk result (λ made. AreChosen dag.new guard list.now others.now made) }
{
    let mut made = List::new(alloc);
    let mut i = 0;
    for a in list {
        let one = choose(alloc, dag, guard, a, &others[i])?;
        made.push(one)?;
        i += 1;
    }
    Ok(made)
}

/// A slot of a struct once more: each field is 0 where the guard holds, and else what it was.
#[tactic(auto, using(crate::proofs::Retakes::keeping))]
pub(crate) fn retaken(
    alloc: Global,
    dag: &mut Dag,
    prog: &Prog,
    guard: BoolId,
    s: StructId,
    slots: &[Slot],
    place: usize,
) -> Result<Slot, AllocError>
    requires there { IsTrue (has_struct prog.now s) }
    requires guard { HasBool dag.old.nodes guard }
    requires heap { HeapStands dag.old prog.now slots.now }
    requires place { IsTrue (is_of slots.now s place) }
    ensures keeps { Keeps dag.old dag.new }
    ensures refilled { IfOk result (λ slot. IsRefilledAt dag.new prog.now guard s place slots.now slot) }
{
    let was = slot_at(slots, place);
    let here = either(dag, was.guard, guard)?;
    let zeros = zero_fields(alloc, dag, fields_of(prog, s))?;
    let fields = chosen(alloc, dag, guard, zeros.as_slice(), was.fields.as_slice())?;
    Ok(Slot {
        guard: here,
        of: s,
        fields,
    })
}
