//! Values of which one part is another one.

ghost use Rattle.std.specs.Prelude.{◌≤◌, length, IfOk};
ghost use Rattle.sk_dag.specs.Eval.{Keeps};
ghost use Rattle.sk_arr.specs.Shapes.{Stands};
ghost use Rattle.sk_sym_stores.specs.Locations.{AreWords};
ghost use Rattle.sk_sym_stores.specs.Replaced.{IsReplaced, IsUnchanged};

use crate::part::{element_at, first_index, with_element};
use sk_arr::copy_shape;
use sk_dag::{Dag, Shape, WordId};
use sk_sym_folds::{flag, or};
use sk_sym_operators::Operated;
use std::alloc::{AllocError, Global};

/// A value without parts once more, as it stays where an index is to name a part of it: that fails.
fn unchanged(alloc: Global, dag: &mut Dag, whole: &Shape) -> Result<Operated, AllocError>
    requires whole { Stands dag.old whole.now }
    ensures keeps { Keeps dag.old dag.new }
    ensures unchanged { IfOk result (λ made. IsUnchanged dag.new whole.now made.value made.fails) }
{
    let value = copy_shape(alloc, whole)?;
    let fails = flag(dag, true)?;
    Ok(Operated { value, fails })
}

/// A value with another one in the place of the part that indexes name, from the outside in. It fails where one leaves its
/// array.
///
/// # Errors
///
/// Memory is wanting, or the elements of an array and the part are not of one form (`never`).
pub(crate) fn replaced(
    alloc: Global,
    dag: &mut Dag,
    indexes: &[WordId],
    whole: &Shape,
    part: &Shape,
) -> Result<Operated, AllocError>
    requires some { 1 ≤ length indexes.now }
    requires indexes { AreWords dag.old indexes.now }
    requires whole { Stands dag.old whole.now }
    requires part { Stands dag.old part.now }
    ensures keeps { Keeps dag.old dag.new }
    ensures replaced { IfOk result (λ made. IsReplaced dag.new indexes.now whole.now part.now made.value made.fails) }
{
    let Some(first) = first_index(indexes) else {
        unreachable!()
    };
    let Shape::Array(list) = whole else {
        let none = unchanged(alloc, dag, whole)?;
        return Ok(none);
    };
    if first.more.is_empty() {
        let last = with_element(alloc, dag, list, first.index, part)?;
        return Ok(last);
    }
    let old = element_at(alloc, dag, list, first.index)?;
    let new = replaced(alloc, dag, first.more, &old.value, part)?;
    let made = with_element(alloc, dag, list, first.index, &new.value)?;
    let fails = or(dag, old.fails, new.fails)?;
    Ok(Operated {
        value: made.value,
        fails,
    })
}
