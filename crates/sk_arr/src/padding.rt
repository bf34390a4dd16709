//! Lists made longer.

ghost use Rattle.std.specs.Prelude.{◌≡◌, ◌≤◌, ◌++◌, ◌-◌, IfOk, All, length, replicate};
ghost use Rattle.sk_dag.specs.Graph.{Graph};
ghost use Rattle.sk_dag.specs.Eval.{Keeps};
ghost use Rattle.sk_arr.specs.Shapes.{AlikeTo, Stands, AllStand};
ghost use Rattle.sk_arr.specs.Answers.{AreCopies, IsPadded};

use crate::copy::{copy, copy_all};
use sk_base::List;
use sk_dag::{Dag, Shape};
use std::alloc::{AllocError, Global};

/// So many copies of a shape.
#[tactic(auto, using(crate::proofs::PadLaws::copies))]
fn copies_of(alloc: Global, a: &Shape, count: usize) -> Result<List<Shape>, AllocError>
    ensures { IfOk result (λ made. (g : Graph) → Stands g a.now → AreCopies g (replicate count a.now) made) }
{
    let mut made = List::new(alloc);
    for _ in 0..count {
        let one = copy(alloc, a)?;
        made.push(one)?;
    }
    Ok(made)
}

/// The list, and then copies of `zero` up to so many. Adds no node.
#[tactic(auto, using(crate::proofs::PadLaws::whole))]
pub fn pad(
    alloc: Global,
    dag: &mut Dag,
    list: &List<Shape>,
    zero: &Shape,
    count: u32,
) -> Result<List<Shape>, AllocError>
    requires list { AllStand dag.old list.now }
    requires zero { Stands dag.old zero.now }
    requires alike { AlikeTo zero.now list.now }
    requires count { length list.now ≤ count }
    ensures same { dag.new ≡ dag.old }
    ensures keeps { Keeps dag.old dag.new }
    ensures padded { IfOk result (λ made. IsPadded dag.new list.now zero.now count made) }
{
    let wanting = count as usize - list.len();
    let mut made = copy_all(alloc, list.as_slice())?;
    let zeros = copies_of(alloc, zero, wanting)?;
    made.append(zeros)?;
    Ok(made)
}
