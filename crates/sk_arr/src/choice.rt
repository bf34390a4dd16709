//! One of two shapes.

ghost use Rattle.std.specs.Prelude.{◌≡◌, [], ℕ, IfOk, All, map};
ghost use Rattle.sk_dag.specs.Graph.{HasBool};
ghost use Rattle.sk_dag.specs.Eval.{Keeps};
ghost use Rattle.sk_arr.specs.Held.{AreMerged, AllIn};
ghost use Rattle.sk_arr.specs.Rising.{RiseFrom};
ghost use Rattle.sk_arr.specs.Shapes.{blank, Alike, Stands, AllStand};
ghost use Rattle.sk_arr.specs.Answers.{IsChoice, AreChoices};

use crate::copy::copy;
use crate::maker::{flag_of, pick_bool, pick_word};
use crate::part::{bit_of, parts_of, targets_of, word_of};
use crate::target::add_targets;
use sk_base::List;
use sk_dag::{BoolId, Dag, Shape, Targets};
use smallvec::SmallVec;
use std::alloc::{AllocError, Global};

/// A reference that has the targets of the one where `c` holds, and those of the other where it does not. Where both have
/// each slot once and in rising order, so has it.
#[tactic(auto, using(crate::proofs::Targets::none_in))]
fn choose_targets(
    alloc: Global,
    dag: &mut Dag,
    c: BoolId,
    a: &Targets,
    b: &Targets,
) -> Result<Targets, AllocError>
    requires c { HasBool dag.old.nodes c }
    requires a { AllIn dag.old a.now.slots.items }
    requires b { AllIn dag.old b.now.slots.items }
    ensures keeps { Keeps dag.old dag.new }
    ensures choice { IfOk result (λ r. AreMerged dag.new c a.now.slots.items b.now.slots.items [] r.slots.items) }
    ensures rising { IfOk result (λ r. (low : ℕ) → RiseFrom low a.now.slots.items → RiseFrom low b.now.slots.items → RiseFrom low r.slots.items) }
{
    let mut slots = SmallVec::new(alloc);
    add_targets(dag, c, a.slots.as_slice(), b.slots.as_slice(), &mut slots)?;
    Ok(Targets { slots })
}

/// Each part by itself.
#[cycle(choose)]
#[tactic(auto, using(crate::proofs::Choices::parts))]
fn choose_parts(
    alloc: Global,
    dag: &mut Dag,
    c: BoolId,
    a: &Shape,
    b: &Shape,
) -> Result<Shape, AllocError>
    requires c { HasBool dag.old.nodes c }
    requires a { Stands dag.old a.now }
    requires b { Stands dag.old b.now }
    requires alike { Alike a.now b.now }
    ensures keeps { Keeps dag.old dag.new }
    ensures choice { IfOk result (λ r. IsChoice dag.new c a.now b.now r) }
{
    match a {
        Shape::Bit(x) => {
            let r = pick_bool(dag, c, *x, bit_of(b))?;
            Ok(Shape::Bit(r))
        }
        Shape::Int(x) => {
            let r = pick_word(dag, c, *x, word_of(b))?;
            Ok(Shape::Int(r))
        }
        Shape::Reference(x) => {
            let r = choose_targets(alloc, dag, c, x, targets_of(b))?;
            Ok(Shape::Reference(r))
        }
        Shape::Array(x) => {
            let r = choose_all(alloc, dag, c, x.as_slice(), parts_of(b))?;
            Ok(Shape::Array(r))
        }
    }
}

/// One by one.
#[cycle(choose)]
#[tactic(auto, using(crate::proofs::Choices::parts))]
fn choose_all(
    alloc: Global,
    dag: &mut Dag,
    c: BoolId,
    list: &[Shape],
    others: &[Shape],
) -> Result<List<Shape>, AllocError>
    requires c { HasBool dag.old.nodes c }
    requires list { AllStand dag.old list.now }
    requires others { AllStand dag.old others.now }
    requires alike { map blank list.now ≡ map blank others.now }
    ensures keeps { Keeps dag.old dag.new }
    ensures choices { IfOk result (λ made. AreChoices dag.new c list.now others.now made) }
{
    let mut made = List::new(alloc);
    let mut i = 0;
    for a in list {
        let one = choose_parts(alloc, dag, c, a, &others[i])?;
        made.push(one)?;
        i += 1;
    }
    Ok(made)
}

/// The shape that is `a` where `c` holds, and `b` where it does not.
///
/// Adds no node where `c` is given, nor where the two have the same numbers.
#[tactic(auto, using(crate::proofs::Choices::known))]
pub fn choose(
    alloc: Global,
    dag: &mut Dag,
    c: BoolId,
    a: &Shape,
    b: &Shape,
) -> Result<Shape, AllocError>
    requires c { HasBool dag.old.nodes c }
    requires a { Stands dag.old a.now }
    requires b { Stands dag.old b.now }
    requires alike { Alike a.now b.now }
    ensures keeps { Keeps dag.old dag.new }
    ensures choice { IfOk result (λ r. IsChoice dag.new c a.now b.now r) }
{
    match flag_of(dag, c) {
        Some(true) => {
            let r = copy(alloc, a)?;
            Ok(r)
        }
        Some(false) => {
            let r = copy(alloc, b)?;
            Ok(r)
        }
        None => {
            let r = choose_parts(alloc, dag, c, a, b)?;
            Ok(r)
        }
    }
}
