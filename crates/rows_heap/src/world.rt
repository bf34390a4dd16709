//! A heap and the values beside it, as one.

ghost use Rattle.rows_heap.specs.Worlds.{IsValue, AreValues};

use crate::calls::{allocated, chosen, field_read, pair, put};
use crate::program::program;
use crate::seen::{Leaf, add_leaves};
use crate::values::{Given, value_given};
use row_tables::{Fault, expect};
use sk_base::List;
use sk_dag::{Dag, Env, Shape};
use sk_heap::SymHeap;
use sk_prog::{Elem, Prog, StructId, Ty};
use std::alloc::{AllocError, Global};
use std::marker::Model;

/// A graph, a heap, and values by their numbers. Contracts see how many values there are.
#[derive(Drop)]
pub struct World {
    alloc: Global,
    prog: Prog,
    dag: Dag,
    heap: SymHeap,
    values: List<(Ty, Shape)>,
}

impl Model for World {
    ghost use Rattle.std.specs.Prelude.{ℕ, length};
    ghost use Rattle.std.specs.Coded.{coded_ℕ};
    ghost use Rattle.sk_heap.specs.Heaps.{HeapStands};
    ghost use Rattle.rows_heap.specs.Worlds.{AreValues};

    ghost Value = { ℕ };

    ghost coded = { coded_ℕ };

    ghost view = { λ w. length w.values };

    ghost invariant = { λ w. HeapStands w.dag w.prog w.heap × AreValues w.dag w.heap w.values };
}

/// One value more.
#[tactic(auto, using(crate::proofs::WorldLaws::values))]
fn keep(
    dag: &Dag,
    heap: &SymHeap,
    values: &mut List<(Ty, Shape)>,
    of: Ty,
    shape: Shape,
) -> Result<(), AllocError>
    requires values { AreValues dag.now heap.now values.old }
    requires value { IsValue dag.now heap.now of shape }
    ensures { AreValues dag.now heap.now values.new }
{
    values.push((of, shape))?;
    Ok(())
}

impl World {
    /// No slots, and no values. Words have six bits.
    #[tactic(auto, using(crate::proofs::WorldLaws::begins))]
    pub fn new(alloc: Global) -> Result<World, AllocError> {
        let prog = program(alloc)?;
        Ok(World {
            alloc,
            prog,
            dag: Dag::new(alloc, 6),
            heap: SymHeap::new(alloc),
            values: List::new(alloc),
        })
    }

    /// The number of nodes.
    pub fn nodes(&self) -> usize {
        self.dag.len()
    }

    /// The number of slots.
    pub fn slots(&self) -> u32 {
        self.heap.slots()
    }

    /// A value that stands on no other.
    #[tactic(auto, using(crate::proofs::WorldLaws::worlds))]
    pub fn give(&mut self, what: Given) -> Result<(), Fault> {
        let made = value_given(self.alloc, &mut self.dag, what)?;
        keep(&self.dag, &self.heap, &mut self.values, made.of, made.shape)?;
        Ok(())
    }

    /// An array of two values of a type.
    pub fn pair(&mut self, first: usize, second: usize) -> Result<(), Fault> {
        let made = pair(
            self.alloc,
            &self.dag,
            &self.heap,
            &self.values,
            first,
            second,
        )?;
        keep(&self.dag, &self.heap, &mut self.values, made.of, made.shape)?;
        Ok(())
    }

    /// A value that is the one where a bit holds, and the other where it does not.
    pub fn choose(&mut self, when: usize, yes: usize, no: usize) -> Result<(), Fault> {
        let made = chosen(
            self.alloc,
            &mut self.dag,
            &self.prog,
            &self.heap,
            &self.values,
            when,
            yes,
            no,
        )?;
        keep(&self.dag, &self.heap, &mut self.values, made.of, made.shape)?;
        Ok(())
    }

    /// A new slot: the reference to it.
    pub fn allocate(&mut self, guard: usize, of: StructId) -> Result<(), Fault> {
        let made = allocated(
            self.alloc,
            &mut self.dag,
            &self.prog,
            &mut self.heap,
            &self.values,
            guard,
            of,
        )?;
        keep(
            &self.dag,
            &self.heap,
            &mut self.values,
            Ty::One(Elem::Reference(of)),
            Shape::Reference(made),
        )?;
        Ok(())
    }

    /// A field of the slot that a reference is at, and then whether it is null.
    #[tactic(auto, using(crate::proofs::ValueLaws::givens))]
    pub fn read(&mut self, target: usize, field: u32) -> Result<(), Fault> {
        let made = field_read(
            self.alloc,
            &mut self.dag,
            &self.prog,
            &self.heap,
            &self.values,
            target,
            field,
        )?;
        keep(&self.dag, &self.heap, &mut self.values, made.of, made.shape)?;
        keep(
            &self.dag,
            &self.heap,
            &mut self.values,
            Ty::One(Elem::Bit),
            Shape::Bit(made.null),
        )?;
        Ok(())
    }

    /// Writes where a bit holds to a field of the slot that a reference is at: whether it is null.
    #[tactic(auto, using(crate::proofs::ValueLaws::givens))]
    pub fn write(
        &mut self,
        guard: usize,
        target: usize,
        field: u32,
        value: usize,
    ) -> Result<(), Fault> {
        let made = put(
            self.alloc,
            &mut self.dag,
            &self.prog,
            &mut self.heap,
            &self.values,
            guard,
            target,
            field,
            value,
        )?;
        keep(
            &self.dag,
            &self.heap,
            &mut self.values,
            Ty::One(Elem::Bit),
            Shape::Bit(made),
        )?;
        Ok(())
    }

    /// What a value is in an environment.
    pub fn seen(&self, number: usize, env: &Env) -> Result<Vec<Leaf>, Fault> {
        let values = self.values.as_slice();
        expect(number < values.len())?;
        let mut leaves = Vec::new(self.alloc);
        add_leaves(&self.dag, &values[number].1, env, &mut leaves)?;
        Ok(leaves)
    }
}
