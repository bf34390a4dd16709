//! Parts of shapes.

ghost use Rattle.std.specs.Prelude.{◌≡◌, ◌≤◌, ◌<◌, [], length, IfOk, OnOk, MatchOption};
ghost use Rattle.sk_dag.specs.Graph.{HasWord};
ghost use Rattle.sk_dag.specs.Eval.{Keeps};
ghost use Rattle.sk_arr.specs.Shapes.{AlikeTo, AllAlike, Stands, AllStand};
ghost use Rattle.sk_arr.specs.Answers.{IsRead};
ghost use Rattle.sk_sym_stores.specs.Replaced.{HasElement, IsFirstIndex};

use sk_arr::{read, write_under};
use sk_base::List;
use sk_dag::{Dag, Shape, WordId};
use sk_limits::never;
use sk_sym_folds::flag;
use sk_sym_operators::{Operated, like_all};
use std::alloc::{AllocError, Global};

/// The first index of a list, and those behind it.
#[derive(Clone, Copy)]
pub(crate) struct First<'a> {
    pub(crate) index: WordId,
    pub(crate) more: &'a [WordId],
}

/// The first index, where there is one.
pub(crate) fn first_index<'a>(indexes: &'a [WordId]) -> Option<First<'a>>
    ensures { MatchOption result (indexes.now ≡ []) (λ first. IsFirstIndex indexes.now first.index first.more.now) }
{
    match indexes {
        [] => None,
        [index, more @ ..] => Some(First {
            index: *index,
            more,
        }),
    }
}

/// Sees to it that the elements of an array are of the form of a shape, as those of a typed program are (`never`).
fn of_one_form(a: &Shape, list: &[Shape]) -> Result<(), AllocError>
    ensures { OnOk result (AlikeTo a.now list.now) }
{
    if !like_all(a, list) {
        return Err(never());
    }
    Ok(())
}

/// Sees to it that the elements of an array are of one form.
#[tactic(auto, using(sk_sym_operators::proofs::Elements::like_each))]
fn all_of_one_form(list: &[Shape]) -> Result<(), AllocError>
    requires { 1 ≤ length list.now }
    ensures { OnOk result (AllAlike list.now) }
{
    of_one_form(&list[0], list)?;
    Ok(())
}

/// What an index names in an array without elements: nothing.
fn nothing(dag: &mut Dag, list: &List<Shape>, index: WordId) -> Result<Operated, AllocError>
    requires { length list.now < 1 }
    ensures keeps { Keeps dag.old dag.new }
    ensures read { IfOk result (λ made. IsRead dag.new list.now index made.value made.fails) }
{
    let fails = flag(dag, true)?;
    Ok(Operated {
        value: Shape::Bit(fails),
        fails,
    })
}

/// The element that an index names, and whether it leaves the range.
pub(crate) fn element_at(
    alloc: Global,
    dag: &mut Dag,
    list: &List<Shape>,
    index: WordId,
) -> Result<Operated, AllocError>
    requires index { HasWord dag.old.nodes index }
    requires list { AllStand dag.old list.now }
    ensures keeps { Keeps dag.old dag.new }
    ensures read { IfOk result (λ made. IsRead dag.new list.now index made.value made.fails) }
{
    if list.len() < 1 {
        let made = nothing(dag, list, index)?;
        return Ok(made);
    }
    all_of_one_form(list.as_slice())?;
    let (value, fails) = read(alloc, dag, list, index)?;
    Ok(Operated { value, fails })
}

/// The array with another value in the place of the element that an index names, and whether it leaves the range. Where it
/// does, the array stays as it is.
pub(crate) fn with_element(
    alloc: Global,
    dag: &mut Dag,
    list: &List<Shape>,
    index: WordId,
    value: &Shape,
) -> Result<Operated, AllocError>
    requires index { HasWord dag.old.nodes index }
    requires list { AllStand dag.old list.now }
    requires value { Stands dag.old value.now }
    ensures keeps { Keeps dag.old dag.new }
    ensures element { IfOk result (λ made. HasElement dag.new list.now index value.now made.value made.fails) }
{
    of_one_form(value, list.as_slice())?;
    let always = flag(dag, true)?;
    let (made, fails) = write_under(alloc, dag, always, list, index, value)?;
    Ok(Operated {
        value: Shape::Array(made),
        fails,
    })
}
