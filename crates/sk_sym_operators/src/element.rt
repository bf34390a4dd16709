//! Elements of arrays.

ghost use Rattle.std.specs.Prelude.{◌≡◌, ◌↔◌, ◌≤◌, ◌<◌, ◌∷◌, [], length, IfOk, IsTrue};
ghost use Rattle.sk_dag.specs.declared.shape.Shape.TheVariants.{Array, Int};
ghost use Rattle.sk_dag.specs.Graph.{HasWord};
ghost use Rattle.sk_dag.specs.Eval.{Keeps};
ghost use Rattle.sk_arr.specs.Shapes.{AlikeTo, AllAlike, Stands, AllStand};
ghost use Rattle.sk_model.specs.Eval.{indexed as indexed_of, sliced as sliced_of};
ghost use Rattle.sk_sym_operators.specs.Worth.{worth};
ghost use Rattle.sk_sym_operators.specs.Answers.{IsOperated};

use crate::form::alike;
use crate::operated::Operated;
use crate::reading::meaningless;
use sk_arr::{read, slice};
use sk_base::List;
use sk_dag::{Dag, Shape, WordId};
use sk_limits::never;
use std::alloc::{AllocError, Global};

/// Whether a shape is of the form of each of these.
pub fn like_all(a: &Shape, list: &[Shape]) -> bool
    ensures { IsTrue result ↔ AlikeTo a.now list.now }
{
    for s in list {
        if !alike(a, s) {
            return false;
        }
    }
    true
}

/// Whether these are of one form.
#[tactic(auto, using(crate::proofs::Elements::like_each, crate::proofs::Elements::first_like_all))]
pub fn are_alike(list: &[Shape]) -> bool
    requires { 1 ≤ length list.now }
    ensures { IsTrue result ↔ AllAlike list.now }
{
    like_all(&list[0], list)
}

/// Whether these are of one form, so that one shape can stand for whichever of them an index names. Those of an array of a
/// typed program are.
fn of_one_form(list: &[Shape]) -> Result<(), AllocError>
    requires { 1 ≤ length list.now }
    ensures { IfOk result (λ made. AllAlike list.now) }
{
    if !are_alike(list) {
        return Err(never());
    }
    Ok(())
}

/// The element that an index names.
fn element(
    alloc: Global,
    dag: &mut Dag,
    list: &List<Shape>,
    index: WordId,
) -> Result<Operated, AllocError>
    requires index { HasWord dag.old.nodes index }
    requires list { AllStand dag.old list.now }
    ensures keeps { Keeps dag.old dag.new }
    ensures operated { IfOk result (λ made. IsOperated dag.new (Array list.now ∷ Int index ∷ []) (λ h e holds span.
        indexed_of span (worth holds h e (Array list.now)) (worth holds h e (Int index))) made.value made.fails) }
{
    if list.len() < 1 {
        let made = meaningless(dag)?;
        return Ok(made);
    }
    of_one_form(list.as_slice())?;
    let (value, fails) = read(alloc, dag, list, index)?;
    Ok(Operated { value, fails })
}

/// The element of an array that an index names. It fails where the index leaves the range, and on shapes that are no array
/// and no word.
///
/// # Errors
///
/// Memory is wanting, or the elements are not of one form, which those of an array of a typed program are. After a refusal the
/// graph has all nodes that it had (`keeps`).
#[tactic(auto, using(sk_arr::proofs::Standing::inside))]
pub fn indexed(
    alloc: Global,
    dag: &mut Dag,
    a: &Shape,
    index: &Shape,
) -> Result<Operated, AllocError>
    requires a { Stands dag.old a.now }
    requires index { Stands dag.old index.now }
    ensures keeps { Keeps dag.old dag.new }
    ensures operated { IfOk result (λ made. IsOperated dag.new (a.now ∷ index.now ∷ []) (λ h e holds span.
        indexed_of span (worth holds h e a.now) (worth holds h e index.now)) made.value made.fails) }
{
    let Shape::Array(list) = a else {
        let made = meaningless(dag)?;
        return Ok(made);
    };
    let Shape::Int(x) = index else {
        let made = meaningless(dag)?;
        return Ok(made);
    };
    let made = element(alloc, dag, list, *x)?;
    Ok(made)
}

/// So many elements, at least one, from the one on that an index names, as an array.
fn elements_from(
    alloc: Global,
    dag: &mut Dag,
    list: &List<Shape>,
    from: WordId,
    count: u32,
) -> Result<Operated, AllocError>
    requires from { HasWord dag.old.nodes from }
    requires list { AllStand dag.old list.now }
    requires some { 1 ≤ count }
    ensures keeps { Keeps dag.old dag.new }
    ensures operated { IfOk result (λ made. IsOperated dag.new (Array list.now ∷ Int from ∷ []) (λ h e holds span.
        sliced_of span count (worth holds h e (Array list.now)) (worth holds h e (Int from))) made.value made.fails) }
{
    if count as usize > list.len() {
        let made = meaningless(dag)?;
        return Ok(made);
    }
    of_one_form(list.as_slice())?;
    let (parts, fails) = slice(alloc, dag, list, from, count)?;
    Ok(Operated {
        value: Shape::Array(parts),
        fails,
    })
}

/// So many elements of an array from the one on that an index names. It fails where they leave the range, and on shapes that
/// are no array and no word.
///
/// # Errors
///
/// Memory is wanting, the count is 0, or the elements are not of one form: no slice of a typed program is so. After a refusal
/// the graph has all nodes that it had (`keeps`).
#[tactic(auto, using(sk_arr::proofs::Standing::inside))]
pub fn sliced(
    alloc: Global,
    dag: &mut Dag,
    count: u32,
    a: &Shape,
    index: &Shape,
) -> Result<Operated, AllocError>
    requires a { Stands dag.old a.now }
    requires index { Stands dag.old index.now }
    ensures keeps { Keeps dag.old dag.new }
    ensures operated { IfOk result (λ made. IsOperated dag.new (a.now ∷ index.now ∷ []) (λ h e holds span. sliced_of span count (worth holds h e a.now) (worth holds h e index.now)) made.value made.fails) }
{
    if count < 1 {
        return Err(never());
    }
    let Shape::Array(list) = a else {
        let made = meaningless(dag)?;
        return Ok(made);
    };
    let Shape::Int(from) = index else {
        let made = meaningless(dag)?;
        return Ok(made);
    };
    let made = elements_from(alloc, dag, list, *from, count)?;
    Ok(made)
}
