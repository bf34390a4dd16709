//! Steps that make a heap and the values beside it, and what the values are then.

use crate::seen::Leaf;
use crate::values::Given;
use crate::world::World;
use row_tables::{Fault, expect};
use sk_base::List;
use sk_dag::Env;
use sk_prog::StructId;
use std::alloc::{AllocError, Global};

/// A step. It names values by their numbers, in the order in which the steps made them.
#[derive(Clone, Copy, Debug)]
pub enum Step {
    Give(Given),
    /// An array of two values of a type.
    Pair(usize, usize),
    /// Where the first holds, the second, else the third.
    Choose(usize, usize, usize),
    /// A new slot under a guard: the reference to it.
    Alloc(usize, StructId),
    /// Two values: the field of the slot that a reference is at, and whether the reference is null.
    Read(usize, u32),
    /// Under a guard, to the slot that a reference is at, to a field, a value: whether the reference is null.
    Write(usize, usize, u32, usize),
}

fn take(world: &mut World, step: Step) -> Result<(), Fault> {
    match step {
        Step::Give(what) => world.give(what),
        Step::Pair(first, second) => world.pair(first, second),
        Step::Choose(when, yes, no) => world.choose(when, yes, no),
        Step::Alloc(guard, of) => world.allocate(guard, of),
        Step::Read(target, field) => world.read(target, field),
        Step::Write(guard, target, field, value) => world.write(guard, target, field, value),
    }
}

/// Takes each step, and sees that it adds so many nodes to the graph.
pub fn take_all(world: &mut World, steps: &[(Step, usize)]) -> Result<(), Fault> {
    for (step, adds) in steps {
        let before = world.nodes();
        take(world, *step)?;
        expect(world.nodes().saturating_sub(before) == *adds)?;
    }
    Ok(())
}

/// The inputs under which values are looked at: `C` and `D` in all four ways, and `X`.
const INPUTS: [[i64; 3]; 4] = [[1, 1, 9], [1, 0, 9], [0, 1, 9], [0, 0, 9]];

fn env_of(alloc: Global, input: &[i64]) -> Result<Env, AllocError> {
    Ok(Env {
        choice: List::new(alloc),
        input: List::from_slice(alloc, input)?,
    })
}

/// A value by its number, and what it is under each of the inputs: nothing where it is left open.
pub type Row = (usize, [&'static [Leaf]; 4]);

fn see(
    alloc: Global,
    world: &World,
    input: &[i64],
    number: usize,
    wanted: &[Leaf],
) -> Result<(), Fault> {
    if wanted.is_empty() {
        return Ok(());
    }
    let env = env_of(alloc, input)?;
    let leaves = world.seen(number, &env)?;
    expect(leaves.as_slice() == wanted)
}

/// Sees that each value is what the row says.
pub fn see_all(alloc: Global, world: &World, rows: &[Row]) -> Result<(), Fault> {
    for (number, wanted) in rows {
        for (input, leaves) in INPUTS.iter().zip(wanted.iter()) {
            see(alloc, world, input, *number, leaves)?;
        }
    }
    Ok(())
}
