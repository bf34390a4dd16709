//! Lists of shapes: copies, forms, and the one or the other by a condition.

ghost use Rattle.std.specs.Prelude.{◌≡◌, ◌↔◌, IfOk, IsTrue, map};
ghost use Rattle.sk_dag.specs.Graph.{Graph, HasBool};
ghost use Rattle.sk_dag.specs.Eval.{Keeps};
ghost use Rattle.sk_arr.specs.Shapes.{blank, Alike, Stands, AllStand};
ghost use Rattle.sk_arr.specs.Answers.{AreCopies, IsChoice};

use sk_arr::{choose, copy_shape};
use sk_base::List;
use sk_dag::{BoolId, Dag, Shape};
use sk_limits::never;
use std::alloc::{AllocError, Global};

/// Shapes once more, over the same nodes.
pub(crate) fn copies(alloc: Global, list: &[Shape]) -> Result<List<Shape>, AllocError>
    ensures { IfOk result (λ made. (g : Graph) → AllStand g list.now → AreCopies g list.now made) }
{
    let mut made = List::new(alloc);
    for a in list {
        let one = copy_shape(alloc, a)?;
        made.push(one)?;
    }
    Ok(made)
}

/// Whether two shapes are of one form.
#[cycle(alike)]
#[tactic(auto, using(crate::proofs::Forms::of_one_form))]
pub fn alike(a: &Shape, b: &Shape) -> bool
    ensures { IsTrue result ↔ Alike a.now b.now }
{
    match a {
        Shape::Bit(_) => match b {
            Shape::Bit(_) => true,
            _ => false,
        },
        Shape::Int(_) => match b {
            Shape::Int(_) => true,
            _ => false,
        },
        Shape::Reference(_) => match b {
            Shape::Reference(_) => true,
            _ => false,
        },
        Shape::Array(x) => match b {
            Shape::Array(y) => all_alike(x.as_slice(), y.as_slice()),
            _ => false,
        },
    }
}

/// Whether two lists of shapes are of the same forms, one by one.
#[cycle(alike)]
fn all_alike(list: &[Shape], others: &[Shape]) -> bool
    ensures { IsTrue result ↔ (map blank list.now ≡ map blank others.now) }
{
    if list.len() != others.len() {
        return false;
    }
    let mut i = 0;
    for a in list {
        if !alike(a, &others[i]) {
            return false;
        }
        i += 1;
    }
    true
}

/// The shape that is `a` where `c` holds, and `b` where it does not. They are of one form, as two values of one variable of
/// a typed program are (`never`). After a refusal the graph has all nodes that it had (`keeps`).
pub fn join_shapes(
    alloc: Global,
    dag: &mut Dag,
    c: BoolId,
    a: &Shape,
    b: &Shape,
) -> Result<Shape, AllocError>
    requires c { HasBool dag.old.nodes c }
    requires a { Stands dag.old a.now }
    requires b { Stands dag.old b.now }
    ensures keeps { Keeps dag.old dag.new }
    ensures choice { IfOk result (λ r. IsChoice dag.new c a.now b.now r) }
{
    if !alike(a, b) {
        return Err(never());
    }
    let r = choose(alloc, dag, c, a, b)?;
    Ok(r)
}
