//! The whole graph anew, from children to parents.

ghost use Rattle.std.specs.Prelude.{◌≡◌, ◌<◌, All, IfOk, length, map};
ghost use Rattle.sk_dag.specs.Graph.{HasBool};
ghost use Rattle.sk_dag.specs.Eval.{Keeps};
ghost use Rattle.sk_dag.specs.Reach.{IsClosed, OnlyMarked, StandForMarked, new_bool};
ghost use Rattle.sk_simplify.specs.Rules.{IsSimple};
ghost use Rattle.sk_simplify.specs.Reduct.{KeepsRoots, OnlyBelow};

use crate::place::place_wanted;
use sk_base::List;
use sk_dag::{BoolId, Dag};
use std::alloc::{AllocError, Global};

/// A graph in which no rule fits any node, and its roots.
#[derive(Drop)]
pub struct Simplified {
    /// The new graph, whose width is that of the old one.
    pub dag: Dag,
    /// The new roots, in the order of the old ones.
    pub roots: List<BoolId>,
}

// Puts what each marked node becomes into the new graph, children first: the number of each.
fn rebuild(
    alloc: Global,
    new: &mut Dag,
    dag: &Dag,
    marks: &[bool],
) -> Result<Vec<usize>, AllocError>
    requires width { dag.now.bits ≡ new.old.bits }
    requires closed { IsClosed dag.now.nodes marks.now }
    requires simple { IsSimple new.old }
    ensures simple { IsSimple new.new }
    ensures keeps { Keeps new.old new.new }
    ensures copied { IfOk result (λ numbers. StandForMarked dag.now new.new marks.now numbers.items (length dag.now.nodes)) }
    ensures only { IfOk result (λ numbers. OnlyMarked new.old new.new marks.now numbers.items (length dag.now.nodes)) }
{
    let mut numbers = Vec::with_capacity(alloc, dag.len())?;
    for i in 0..dag.len() {
        let number = place_wanted(new, marks[i], *dag.node(i), &numbers)?;
        numbers.push(number)?;
    }
    Ok(numbers)
}

fn new_root(numbers: &[usize], root: BoolId) -> BoolId
    requires { root.index < length numbers.now }
    ensures { result ≡ new_bool numbers.now root }
{
    BoolId {
        index: numbers[root.index],
    }
}

// What stands for the roots.
fn new_roots(alloc: Global, roots: &[BoolId], numbers: &[usize]) -> Result<List<BoolId>, AllocError>
    requires { All (λ r. r.index < length numbers.now) roots.now }
    ensures { IfOk result (λ made. made ≡ map (new_bool numbers.now) roots.now) }
{
    let mut made = List::new(alloc);
    for root in roots {
        made.push(new_root(numbers, *root))?;
    }
    Ok(made)
}

/// The same truth values over a new graph of the same width, in which no node is an instance of a
/// rule's left side. Each node of the new graph stands for one that the roots stand on, and no two
/// for the same.
pub fn simplify(alloc: Global, dag: &Dag, roots: &[BoolId]) -> Result<Simplified, AllocError>
    requires { All (HasBool dag.now.nodes) roots.now }
    ensures width { IfOk result (λ made. made.dag.bits ≡ dag.now.bits) }
    ensures simple { IfOk result (λ made. IsSimple made.dag) }
    ensures roots { IfOk result (λ made. KeepsRoots dag.now roots.now made.dag made.roots) }
    ensures only { IfOk result (λ made. OnlyBelow dag.now roots.now made.dag) }
{
    let marks = dag.reached(roots)?;
    let mut new = Dag::new(alloc, dag.int_bits());
    let numbers = rebuild(alloc, &mut new, dag, marks.as_slice())?;
    let made = new_roots(alloc, roots, &numbers)?;
    Ok(Simplified {
        dag: new,
        roots: made,
    })
}
