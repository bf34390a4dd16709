//! The whole graph, simplified before and after its sums are written anew.

ghost use Rattle.std.specs.Prelude.{◌≡◌, ◌<◌, All, IfOk, IsTrue, length, map};
ghost use Rattle.sk_dag.specs.Graph.{HasBool, MayFollow};
ghost use Rattle.sk_dag.specs.Eval.{Keeps};
ghost use Rattle.sk_dag.specs.Reach.{IsClosed, MarksReached, StandForMarked, new_bool, renumbered, children, Each};
ghost use Rattle.sk_simplify.specs.Rules.{IsSimple};
ghost use Rattle.sk_simplify.specs.Reduct.{KeepsRoots, IsWorth};

use crate::choice::{any_is_set, cancelling};
use crate::write::put;
use sk_base::List;
use sk_dag::{BoolId, Dag, Node};
use sk_simplify::{Simplified, simplify};
use std::alloc::{AllocError, Global};

// The number of what a node becomes over these numbers, where it is wanted.
fn put_wanted(
    alloc: Global,
    new: &mut Dag,
    wanted: bool,
    is_chosen: bool,
    node: Node,
    numbers: &[usize],
) -> Result<usize, AllocError>
    requires within { Each (λ c. c < length numbers.now) (children node) }
    requires follows { IsTrue wanted → MayFollow new.old.bits new.old.nodes (renumbered numbers.now node) }
    ensures keeps { Keeps new.old new.new }
    ensures placed { IsTrue wanted → IfOk result (λ i. IsWorth new.new (renumbered numbers.now node) i) }
{
    if !wanted {
        return Ok(0);
    }
    let i = put(alloc, new, node.renumbered(numbers), is_chosen)?;
    Ok(i)
}

// Puts each marked node into the new graph, children first, and the chosen sums anew: the number of each.
fn rebuild(
    alloc: Global,
    new: &mut Dag,
    dag: &Dag,
    marks: &[bool],
    chosen: &[bool],
) -> Result<Vec<usize>, AllocError>
    requires width { dag.now.bits ≡ new.old.bits }
    requires closed { IsClosed dag.now.nodes marks.now }
    requires chosen { length chosen.now ≡ length dag.now.nodes }
    ensures keeps { Keeps new.old new.new }
    ensures copied { IfOk result (λ numbers. StandForMarked dag.now new.new marks.now numbers.items (length dag.now.nodes)) }
{
    let mut numbers = Vec::with_capacity(alloc, dag.len())?;
    for i in 0..dag.len() {
        let number = put_wanted(alloc, new, marks[i], chosen[i], *dag.node(i), &numbers)?;
        numbers.push(number)?;
    }
    Ok(numbers)
}

fn new_root(numbers: &[usize], root: BoolId) -> BoolId
    requires { root.index < length numbers.now }
    ensures { result ≡ new_bool numbers.now root }
{
    BoolId {
        index: numbers[root.index],
    }
}

// What stands for the roots.
fn new_roots(alloc: Global, roots: &[BoolId], numbers: &[usize]) -> Result<List<BoolId>, AllocError>
    requires { All (λ r. r.index < length numbers.now) roots.now }
    ensures { IfOk result (λ made. made ≡ map (new_bool numbers.now) roots.now) }
{
    let mut made = List::new(alloc);
    for root in roots {
        made.push(new_root(numbers, *root))?;
    }
    Ok(made)
}

// The same truth values over a graph in which the chosen sums are written anew.
fn summed(
    alloc: Global,
    dag: &Dag,
    roots: &[BoolId],
    marks: &[bool],
    chosen: &[bool],
) -> Result<Simplified, AllocError>
    requires roots { All (HasBool dag.now.nodes) roots.now }
    requires marks { MarksReached dag.now.nodes roots.now marks.now }
    requires chosen { length chosen.now ≡ length dag.now.nodes }
    ensures width { IfOk result (λ made. made.dag.bits ≡ dag.now.bits) }
    ensures roots { IfOk result (λ made. KeepsRoots dag.now roots.now made.dag made.roots) }
{
    let mut new = Dag::new(alloc, dag.int_bits());
    let numbers = rebuild(alloc, &mut new, dag, marks, chosen)?;
    let made = new_roots(alloc, roots, &numbers)?;
    Ok(Simplified {
        dag: new,
        roots: made,
    })
}

// The same truth values over a simpler graph: the sums whose terms cancel are written anew, if there are any.
fn cancelled(alloc: Global, first: Simplified) -> Result<Simplified, AllocError>
    requires simple { IsSimple first.dag }
    requires roots { All (HasBool first.dag.nodes) first.roots }
    ensures width { IfOk result (λ made. made.dag.bits ≡ first.dag.bits) }
    ensures simple { IfOk result (λ made. IsSimple made.dag) }
    ensures roots { IfOk result (λ made. KeepsRoots first.dag first.roots made.dag made.roots) }
{
    let roots = first.roots.as_slice();
    let marks = first.dag.reached(roots)?;
    let chosen = cancelling(alloc, &first.dag, marks.as_slice(), roots)?;
    if !any_is_set(&chosen) {
        return Ok(first);
    }
    let next = summed(alloc, &first.dag, roots, marks.as_slice(), &chosen)?;
    let last = simplify(alloc, &next.dag, next.roots.as_slice())?;
    Ok(last)
}

/// The same truth values over a new graph of the same width, in which no node is an instance of a rule's left side.
/// Sums modulo 2 are written without the terms that cancel, if all have few terms.
pub fn simplify_sums(alloc: Global, dag: &Dag, roots: &[BoolId]) -> Result<Simplified, AllocError>
    requires { All (HasBool dag.now.nodes) roots.now }
    ensures width { IfOk result (λ made. made.dag.bits ≡ dag.now.bits) }
    ensures simple { IfOk result (λ made. IsSimple made.dag) }
    ensures roots { IfOk result (λ made. KeepsRoots dag.now roots.now made.dag made.roots) }
{
    let first = simplify(alloc, dag, roots)?;
    let made = cancelled(alloc, first)?;
    Ok(made)
}
