//! Elements from an index on.

ghost use Rattle.std.specs.Prelude.{◌≤◌, ◌+◌, IfOk, length};
ghost use Rattle.sk_dag.specs.Graph.{HasWord};
ghost use Rattle.sk_dag.specs.Eval.{Keeps};
ghost use Rattle.sk_arr.specs.Shapes.{AllAlike, AllStand};
ghost use Rattle.sk_arr.specs.Answers.{IsSliced};
ghost use Rattle.sk_arr.specs.Steps.{AreReadFrom};

use crate::index::{element, is_outside};
use sk_base::List;
use sk_dag::{BoolId, Dag, Shape, WordId};
use std::alloc::{AllocError, Global};

/// So many elements from the one on that the index names, which is one of the first `starts`.
#[tactic(auto, using(crate::proofs::SliceLaws::slices))]
fn elements_from(
    alloc: Global,
    dag: &mut Dag,
    list: &[Shape],
    from: WordId,
    starts: usize,
    count: usize,
) -> Result<List<Shape>, AllocError>
    requires from { HasWord dag.old.nodes from }
    requires list { AllStand dag.old list.now }
    requires alike { AllAlike list.now }
    requires some { 1 ≤ starts }
    requires within { starts + count ≤ length list.now + 1 }
    ensures keeps { Keeps dag.old dag.new }
    ensures read { IfOk result (λ made. AreReadFrom dag.new list.now from starts count made) }
{
    let mut made = List::new(alloc);
    for j in 0..count {
        let one = element(alloc, dag, &list[j..j + starts], from)?;
        made.push(one)?;
    }
    Ok(made)
}

/// So many elements of the list from the one on that the index names, and whether one of them is not in the list. The
/// elements are alike. Adds no node but flags where the index is given.
#[tactic(auto, using(crate::proofs::SliceLaws::whole))]
pub fn slice(
    alloc: Global,
    dag: &mut Dag,
    list: &List<Shape>,
    from: WordId,
    count: u32,
) -> Result<(List<Shape>, BoolId), AllocError>
    requires from { HasWord dag.old.nodes from }
    requires list { AllStand dag.old list.now }
    requires alike { AllAlike list.now }
    requires some { 1 ≤ count }
    requires count { count ≤ length list.now }
    ensures keeps { Keeps dag.old dag.new }
    ensures sliced { IfOk result (λ r. IsSliced dag.new list.now from count r.0 r.1) }
{
    let starts = list.len() - (count as usize - 1);
    let made = elements_from(alloc, dag, list.as_slice(), from, starts, count as usize)?;
    let outside = is_outside(dag, from, starts)?;
    Ok((made, outside))
}
