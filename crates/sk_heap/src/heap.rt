//! The heap: the slots that allocations made.

ghost use Rattle.std.specs.Prelude.{◌≡◌, ◌<◌, [], length, IfOk, OnOk, OnErr, IsTrue};
ghost use Rattle.sk_dag.specs.Graph.{HasBool};
ghost use Rattle.sk_dag.specs.Eval.{Keeps};
ghost use Rattle.sk_prog.specs.declared.ids.StructId.{StructId};
ghost use Rattle.sk_prog.specs.declared.prog.Prog.{Prog};
ghost use Rattle.sk_prog.specs.Fits.{has_struct, has_field};
ghost use Rattle.sk_heap.specs.Heaps.{is_of, RefersTo, HeapStands};
ghost use Rattle.sk_heap.specs.Answers.{IsAllocated, IsFieldRead, MayWrite, CanBeWritten, IsNull, IsFieldWritten};
ghost use Rattle.sk_heap.specs.Retakes.{IsRetaken};

use crate::fields::{fields_of, type_of};
use crate::read::{none_of, read_targets};
use crate::retaken::retaken;
use crate::slot::{Slot, number_of, put_slot};
use crate::write::write_targets;
use crate::zero::zero_fields;
use sk_dag::{BoolId, Dag, Shape, Targets};
use sk_prog::{Prog, StructId};
use smallvec::SmallVec;
use std::alloc::{AllocError, Global};
use std::marker::Model;

/// Slots under guards, at most 256. Contracts see the list of them.
#[derive(Debug, Drop)]
pub struct SymHeap {
    slots: Vec<Slot>,
}

impl Model for SymHeap {
    ghost use Rattle.std.specs.Prelude.{List, length, ◌≤◌};
    ghost use Rattle.std.specs.Coded.{codes};
    ghost use Rattle.sk_dag.specs.contracts.shape.Shape as shape;
    ghost use Rattle.sk_heap.specs.declared.slot.Slot.{Slot};

    ghost Value = { List Slot };

    ghost coded = { Prim.hlevel (codes, shape.the_row.coded) };

    ghost view = { λ h. h.slots.items };

    ghost invariant = { λ h. length h.slots.items ≤ 256 };
}

impl SymHeap {
    /// No slots. It takes no memory.
    pub fn new(alloc: Global) -> SymHeap
        ensures { result ≡ [] }
    {
        SymHeap {
            slots: Vec::new(alloc),
        }
    }

    /// How many slots there are.
    pub fn slots(&self) -> u32
        ensures { result ≡ length self.now }
    {
        self.slots.len() as u32
    }

    /// A new slot of a struct, in which each field is 0, and the reference that is at it where the guard holds.
    pub fn alloc_under(
        &mut self,
        alloc: Global,
        dag: &mut Dag,
        prog: &Prog,
        guard: BoolId,
        s: StructId,
    ) -> Result<Targets, AllocError>
        requires few { length self.old < 256 }
        requires there { IsTrue (has_struct prog.now s) }
        requires guard { HasBool dag.old.nodes guard }
        requires heap { HeapStands dag.old prog.now self.old }
        ensures keeps { Keeps dag.old dag.new }
        ensures stands { HeapStands dag.new prog.now self.new }
        ensures err { OnErr result (self.new ≡ self.old) }
        ensures allocated { IfOk result (λ r. IsAllocated dag.new prog.now guard s self.old self.new r) }
    {
        let fields = zero_fields(alloc, dag, fields_of(prog, s))?;
        let slot = Slot {
            guard,
            of: s,
            fields,
        };
        let place = self.slots();
        let mut slots = SmallVec::new(alloc);
        slots.push((place, guard))?;
        self.slots.push(slot)?;
        Ok(Targets { slots })
    }

    /// A slot of a struct once more, in which each field is 0 where the guard holds and else what it was, and the reference
    /// that is at it where the guard holds.
    #[tactic(auto, using(crate::proofs::Retakes::set_long))]
    pub fn retake_under(
        &mut self,
        alloc: Global,
        dag: &mut Dag,
        prog: &Prog,
        guard: BoolId,
        s: StructId,
        place: usize,
    ) -> Result<Targets, AllocError>
        requires there { IsTrue (has_struct prog.now s) }
        requires guard { HasBool dag.old.nodes guard }
        requires heap { HeapStands dag.old prog.now self.old }
        requires place { IsTrue (is_of self.old s place) }
        ensures keeps { Keeps dag.old dag.new }
        ensures stands { HeapStands dag.new prog.now self.new }
        ensures err { OnErr result (self.new ≡ self.old) }
        ensures retaken { IfOk result (λ r. IsRetaken dag.new prog.now guard s place self.old self.new r) }
    {
        let count = self.slots();
        let number = number_of(count, place);
        let mut slots = SmallVec::new(alloc);
        slots.push((number, guard))?;
        let slot = retaken(alloc, dag, prog, guard, s, self.slots.as_slice(), place)?;
        put_slot(&mut self.slots, place, slot);
        Ok(Targets { slots })
    }

    /// A field of the slot that a reference is at, and whether it is null.
    pub fn read_field(
        &self,
        alloc: Global,
        dag: &mut Dag,
        prog: &Prog,
        s: StructId,
        target: &Targets,
        field: u32,
    ) -> Result<(Shape, BoolId), AllocError>
        requires there { IsTrue (has_field prog.now s field) }
        requires heap { HeapStands dag.old prog.now self.now }
        requires target { RefersTo dag.old self.now s target.now }
        ensures keeps { Keeps dag.old dag.new }
        ensures read { IfOk result (λ r. IsFieldRead dag.new self.now prog.now s target.now field r.0 r.1) }
    {
        let targets = target.slots.as_slice();
        let null = none_of(dag, targets)?;
        let ty = type_of(prog, s, field);
        let value = read_targets(alloc, dag, self.slots.as_slice(), targets, ty, field)?;
        Ok((value, null))
    }

    /// Writes to a field of the slot that a reference is at, where the guard holds. The answer is whether the reference
    /// is null, whatever the guard is.
    pub fn write_field_under(
        &mut self,
        alloc: Global,
        dag: &mut Dag,
        guard: BoolId,
        target: &Targets,
        field: u32,
        value: &Shape,
    ) -> Result<BoolId, AllocError>
        requires guard { HasBool dag.old.nodes guard }
        requires write { CanBeWritten dag.old self.old target.now field value.now }
        ensures keeps { Keeps dag.old dag.new }
        ensures stands { (prog : Prog) (s : StructId) → MayWrite dag.old prog self.old s target.now field value.now → HeapStands dag.new prog self.new }
        ensures err { OnErr result (self.new ≡ self.old) }
        ensures null { IfOk result (λ r. IsNull dag.new target.now r) }
        ensures written { OnOk result (IsFieldWritten dag.new guard target.now field value.now self.old self.new) }
    {
        let targets = target.slots.as_slice();
        let null = none_of(dag, targets)?;
        write_targets(
            alloc,
            dag,
            guard,
            &mut self.slots,
            target,
            targets,
            field,
            value,
        )?;
        Ok(null)
    }
}
