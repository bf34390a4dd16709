//! What an input asks of a choice, in a graph that holds more.

ghost use Rattle.std.specs.Prelude.{◌≡◌, ◌<◌, length, slice_get, Some, IfOk};
ghost use Rattle.sk_dag.specs.declared.env.Env.{Env};
ghost use Rattle.sk_dag.specs.Graph.{Graph, Grows, HasBool};
ghost use Rattle.sk_dag.specs.Eval.{bool_value, Keeps};
ghost use Rattle.sk_oblig.specs.Formulas.{IsAskable};
ghost use Rattle.sk_oblig.specs.Nodes.{SaysFine};

use sk_base::Bounds;
use sk_dag::{BoolId, Dag};
use sk_model::{Expanded, Input};
use sk_oblig::is_fine;
use sk_oblig_queries::obligations;
use sk_sums::simplify_sums;
use std::alloc::{AllocError, Global};

// The first of some roots.
fn first(roots: &[BoolId]) -> BoolId
    requires { 0 < length roots.now }
    ensures { slice_get roots.now 0 ≡ Some result }
{
    roots[0]
}

// A node with the value of one of another graph, which is simplified on the way.
#[tactic(auto, using(crate::proofs::Moved::moving))]
fn moved(alloc: Global, to: &mut Dag, dag: &Dag, root: BoolId) -> Result<BoolId, AllocError>
    requires width { dag.now.bits ≡ to.old.bits }
    requires root { HasBool dag.now.nodes root }
    ensures keeps { Keeps to.old to.new }
    ensures there { IfOk result (λ r. HasBool to.new.nodes r) }
    ensures value { IfOk result (λ r. (g : Graph) → Grows to.new g → (e : Env) → bool_value g e r ≡ bool_value dag.now e root) }
{
    let made = simplify_sums(alloc, dag, &[root])?;
    let simple = first(made.roots.as_slice());
    let r = to.graft(&made.dag, simple)?;
    Ok(r)
}

/// Whether an input does not speak against the choice, where that is in range. It is put in a graph of its own first, which
/// is simplified.
#[tactic(auto, using(crate::proofs::Moved::moving))]
pub(crate) fn fine_in(
    alloc: Global,
    to: &mut Dag,
    expanded: &Expanded,
    bounds: &Bounds,
    input: &Input,
    limit: Option<u64>,
) -> Result<BoolId, AllocError>
    requires width { to.old.bits ≡ bounds.now.int_bits }
    requires askable { IsAskable expanded.now bounds.now }
    ensures keeps { Keeps to.old to.new }
    ensures fine { IfOk result (λ r. SaysFine to.new expanded.now bounds.now limit input.now r) }
{
    let mut dag = Dag::new(alloc, bounds.int_bits);
    let all = obligations(alloc, &expanded.prog)?;
    let listed = all.as_slice();
    let fine = is_fine(alloc, &mut dag, expanded, bounds, listed, input, limit)?;
    let r = moved(alloc, to, &dag, fine)?;
    Ok(r)
}
