//! Which sums are written anew.

ghost use Rattle.std.specs.Prelude.{◌≡◌, ◌<◌, length, IfOk, IfSome, All};
ghost use Rattle.sk_dag.specs.Graph.{HasBool};

use crate::spread::spread;
use sk_dag::{BoolId, Dag, Node};
use std::alloc::{AllocError, Global};

// Sets a mark, where there is one with this number.
fn mark(marks: &mut [bool], number: usize)
    ensures { length marks.new ≡ length marks.old }
{
    if number < marks.len() {
        marks[number] = true;
    }
}

// Whether the mark with this number is set.
fn is_marked(marks: &[bool], number: usize) -> bool {
    number < marks.len() && marks[number]
}

// Marks the truth values that a node names, but those that it is a sum of.
fn mark_named(node: Node, is_top: bool, tops: &mut [bool])
    ensures { length tops.new ≡ length tops.old }
{
    match node {
        Node::Not(a) => {
            if is_top {
                mark(tops, a.index);
            }
        }
        Node::And(a, b) | Node::Or(a, b) => {
            mark(tops, a.index);
            mark(tops, b.index);
        }
        Node::BoolMux(c, a, b) => {
            mark(tops, c.index);
            mark(tops, a.index);
            mark(tops, b.index);
        }
        Node::Mux(c, _, _) => mark(tops, c.index),
        Node::CostAdd(_, when, _) => mark(tops, when.index),
        _ => {}
    }
}

// Marks the roots.
fn mark_roots(roots: &[BoolId], tops: &mut [bool])
    ensures { length tops.new ≡ length tops.old }
{
    for root in roots {
        mark(tops, root.index);
    }
}

// Marks each truth value that stands elsewhere than in a sum alone, of the nodes with a mark.
fn mark_tops(dag: &Dag, marks: &[bool], roots: &[BoolId], tops: &mut [bool])
    ensures { length tops.new ≡ length tops.old }
{
    mark_roots(roots, tops);
    let count = dag.len();
    for k in 0..count {
        let number = count - 1 - k;
        if is_marked(marks, number) {
            mark_named(*dag.node(number), is_marked(tops, number), tops);
        }
    }
}

// Whether terms of a node fall away; nothing, where it is a sum past the bounds.
fn cancels(alloc: Global, dag: &Dag, number: usize) -> Result<Option<bool>, AllocError>
    requires { number < length dag.now.nodes }
{
    match *dag.node(number) {
        Node::Xor(_, _) => match spread(alloc, dag, BoolId { index: number })? {
            Some(sum) => Ok(Some(sum.cancels)),
            None => Ok(None),
        },
        _ => Ok(Some(false)),
    }
}

// The same for a node that stands elsewhere than in a sum alone; no terms of another fall away.
fn cancels_on_top(
    alloc: Global,
    dag: &Dag,
    tops: &[bool],
    number: usize,
) -> Result<Option<bool>, AllocError>
    requires { number < length dag.now.nodes }
{
    if !is_marked(tops, number) {
        return Ok(Some(false));
    }
    let is = cancels(alloc, dag, number)?;
    Ok(is)
}

// A mark for each node: whether it is a sum that is written anew; nothing, where a sum is past the bounds.
fn chosen(alloc: Global, dag: &Dag, tops: &[bool]) -> Result<Option<Vec<bool>>, AllocError>
    ensures { IfOk result (λ found. IfSome found (λ made. length made.items ≡ length dag.now.nodes)) }
{
    let mut made = Vec::with_capacity(alloc, dag.len())?;
    for i in 0..dag.len() {
        match cancels_on_top(alloc, dag, tops, i)? {
            Some(is) => made.push(is)?,
            None => return Ok(None),
        }
    }
    Ok(Some(made))
}

/// A mark for each node: whether it is a sum whose terms cancel, and stands elsewhere than in a sum alone. No mark is
/// set where a sum is past the bounds.
pub(crate) fn cancelling(
    alloc: Global,
    dag: &Dag,
    marks: &[bool],
    roots: &[BoolId],
) -> Result<Vec<bool>, AllocError>
    ensures { IfOk result (λ made. length made.items ≡ length dag.now.nodes) }
{
    let mut tops = vec![in alloc; false; dag.len()]?;
    mark_tops(dag, marks, roots, &mut tops);
    match chosen(alloc, dag, &tops)? {
        Some(made) => Ok(made),
        None => {
            let none = vec![in alloc; false; dag.len()]?;
            Ok(none)
        }
    }
}

/// Whether a mark is set.
pub(crate) fn any_is_set(marks: &[bool]) -> bool {
    for mark in marks {
        if *mark {
            return true;
        }
    }
    false
}
