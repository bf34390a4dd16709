//! What the calls ask of their arguments, as tests that are made when the examples run.

ghost use Rattle.std.specs.Prelude.{◌≡◌, IsTrue, not, map};
ghost use Rattle.sk_dag.specs.declared.env.Env.{Env};
ghost use Rattle.sk_dag.specs.Graph.{Graph, Grows, HasBool};
ghost use Rattle.sk_dag.specs.Eval.{bool_value};
ghost use Rattle.sk_arr.specs.Forms.{IsBit};
ghost use Rattle.sk_arr.specs.Shapes.{blank, Alike, AlikeTo, AllAlike, Stands, AllStand};
ghost use Rattle.sk_arr.specs.Bits.{AreBits};
ghost use Rattle.rows_values.specs.Known.{TargetsStand};

use row_tables::{has_bool, has_word};
use sk_dag::{BoolId, Dag, Node, Shape};

/// Whether the second is the negation of the first.
#[tactic(auto, using(sk_arr::proofs::Makers::reading), unfolding(sk_dag::specs::Eval::value_of, sk_dag::specs::Eval::bool_value))]
fn is_opposite(dag: &Dag, first: BoolId, second: BoolId) -> bool
    requires { HasBool dag.now.nodes second }
    ensures { IsTrue result → (g : Graph) → Grows dag.now g → (e : Env) → bool_value g e second ≡ not (bool_value g e first) }
{
    match *dag.node(second.index) {
        Node::Not(a) => a.index == first.index,
        _ => false,
    }
}

/// Whether there is at most one target, or there are two, of which one holds where the other does not.
#[tactic(auto, using(crate::proofs::KnownLaws::targets))]
fn targets_stand(dag: &Dag, targets: &[(u32, BoolId)]) -> bool
    ensures { IsTrue result → TargetsStand dag.now targets.now }
{
    match targets {
        [] => true,
        [(_, guard)] => has_bool(dag, *guard),
        [(_, first), (_, second)] => {
            has_bool(dag, *first) && has_bool(dag, *second) && is_opposite(dag, *first, *second)
        }
        _ => false,
    }
}

/// Whether the nodes of a shape are in the graph, and of each of its references at most one target holds.
#[cycle(stands)]
#[tactic(auto, using(crate::proofs::KnownLaws::standing))]
pub fn stands(dag: &Dag, a: &Shape) -> bool
    ensures { IsTrue result → Stands dag.now a.now }
{
    match a {
        Shape::Bit(id) => has_bool(dag, *id),
        Shape::Int(id) => has_word(dag, *id),
        Shape::Reference(targets) => targets_stand(dag, targets.slots.as_slice()),
        Shape::Array(parts) => all_stand(dag, parts.as_slice()),
    }
}

/// Whether all of these do.
#[cycle(stands)]
#[tactic(auto, using(crate::proofs::KnownLaws::standing))]
pub fn all_stand(dag: &Dag, list: &[Shape]) -> bool
    ensures { IsTrue result → AllStand dag.now list.now }
{
    for a in list {
        if !stands(dag, a) {
            return false;
        }
    }
    true
}

/// Whether two shapes have one form.
#[cycle(alike)]
#[tactic(auto, using(crate::proofs::KnownLaws::forms))]
pub fn alike(a: &Shape, b: &Shape) -> bool
    ensures { IsTrue result → Alike a.now b.now }
{
    match a {
        Shape::Bit(_) => match b {
            Shape::Bit(_) => true,
            _ => false,
        },
        Shape::Int(_) => match b {
            Shape::Int(_) => true,
            _ => false,
        },
        Shape::Reference(_) => match b {
            Shape::Reference(_) => true,
            _ => false,
        },
        Shape::Array(parts) => match b {
            Shape::Array(others) => one_by_one(parts.as_slice(), others.as_slice()),
            _ => false,
        },
    }
}

/// Whether these have the forms of those.
#[cycle(alike)]
#[tactic(auto, using(crate::proofs::KnownLaws::forms))]
fn one_by_one(list: &[Shape], others: &[Shape]) -> bool
    ensures { IsTrue result → map blank list.now ≡ map blank others.now }
{
    if list.len() != others.len() {
        return false;
    }
    let mut i = 0;
    for a in list {
        if !alike(a, &others[i]) {
            return false;
        }
        i += 1;
    }
    true
}

/// Whether each has the form of a shape.
pub fn alike_to(a: &Shape, list: &[Shape]) -> bool
    ensures { IsTrue result → AlikeTo a.now list.now }
{
    for b in list {
        if !alike(a, b) {
            return false;
        }
    }
    true
}

/// Whether all have one form.
#[tactic(auto, using(crate::proofs::KnownLaws::all_alike_from))]
pub fn all_alike(list: &[Shape]) -> bool
    ensures { IsTrue result → AllAlike list.now }
{
    match list {
        [] => true,
        [first, ..] => alike_to(first, list),
    }
}

#[tactic(auto, using(crate::proofs::KnownLaws::bit_form))]
fn is_bit(a: &Shape) -> bool
    ensures { IsTrue result → IsBit a.now }
{
    match a {
        Shape::Bit(_) => true,
        _ => false,
    }
}

/// Whether all are bits.
pub fn are_bits(list: &[Shape]) -> bool
    ensures { IsTrue result → AreBits list.now }
{
    for a in list {
        if !is_bit(a) {
            return false;
        }
    }
    true
}
