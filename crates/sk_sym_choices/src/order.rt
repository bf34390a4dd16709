//! The turns of the statements of a `reorder`.
//!
//! The statements are placed one after another, each among those placed before it, so that as many of them stand behind
//! it as its digit says. The digit of the first is 0, and the later ones are chosen, each for a site of its own.

ghost use Rattle.std.specs.Prelude.{◌≡◌, ℕ, List, ◌<◌, ◌≤◌, ◌+◌, ◌-◌, IfOk, length, get_or, replicate, true, false};
ghost use Rattle.std.specs.List.{insert};
ghost use Rattle.std.specs.Option.{option_copied};
ghost use Rattle.sk_dag.specs.declared.env.Env.{Env};
ghost use Rattle.sk_dag.specs.Graph.{Graph, Grows, HasBool};
ghost use Rattle.sk_dag.specs.Eval.{bool_value, Keeps};
ghost use Rattle.sk_model.specs.Parts.{value};
ghost use Rattle.sk_model.specs.Fill.{digit};
ghost use Rattle.sk_sym_folds.specs.Chosen.{chosen_values};
ghost use Rattle.sk_sym_choices.specs.Orders.{values_of, AllThere, AreTurns, IsPut, IsGiven};

use sk_base::List;
use sk_dag::{BoolId, Dag};
use sk_limits::too_many;
use sk_model::Choice;
use sk_sym_folds::{bool_mux, flag, site_above, site_is};
use std::alloc::{AllocError, Global};

// The node at a place of a list, or another where there is none.
pub(crate) fn node_at(nodes: &[BoolId], place: usize, other: BoolId) -> BoolId
    ensures { result ≡ get_or nodes.now place other }
{
    nodes.get(place).copied().unwrap_or(other)
}

// What stands at a turn once one more is put in, as many places from the end as a site's value says.
fn put_at(
    dag: &mut Dag,
    nodes: &[BoolId],
    turn: usize,
    site: usize,
    node: BoolId,
    chosen: Option<&Choice>,
) -> Result<BoolId, AllocError>
    requires turn { turn ≤ length nodes.now }
    requires nodes { AllThere dag.old nodes.now }
    requires node { HasBool dag.old.nodes node }
    ensures keeps { Keeps dag.old dag.new }
    ensures there { IfOk result (λ r. HasBool dag.new.nodes r) }
    ensures value { IfOk result (λ r. (g : Graph) → Grows dag.new g → (e : Env) →
        value (chosen_values (option_copied chosen.entry) e) site ≤ length nodes.now →
        bool_value g e r ≡ get_or (insert (values_of g e nodes.now) (length nodes.now - value (chosen_values (option_copied chosen.entry) e) site) (bool_value g e node)) turn (bool_value g e node)) }
{
    let size = nodes.len() as u64 + 1;
    let behind = (nodes.len() - turn) as u64;
    let same = site_is(dag, site, size, behind, chosen)?;
    let above = site_above(dag, site, size, behind, chosen)?;
    let near = bool_mux(dag, same, node, node_at(nodes, turn, node))?;
    let before = node_at(nodes, turn.saturating_sub(1), node);
    let r = bool_mux(dag, above, before, near)?;
    Ok(r)
}

// One more is put in, as many places from the end as a site's value says.
fn put_by(
    alloc: Global,
    dag: &mut Dag,
    nodes: &[BoolId],
    site: usize,
    node: BoolId,
    chosen: Option<&Choice>,
) -> Result<List<BoolId>, AllocError>
    requires nodes { AllThere dag.old nodes.now }
    requires node { HasBool dag.old.nodes node }
    ensures keeps { Keeps dag.old dag.new }
    ensures put { IfOk result (λ made. IsPut dag.new (λ e. value (chosen_values (option_copied chosen.entry) e) site) nodes.now node made) }
{
    let mut made = List::new(alloc);
    for turn in 0..nodes.len() + 1 {
        let next = put_at(dag, nodes, turn, site, node, chosen)?;
        made.push(next)?;
    }
    Ok(made)
}

// The place of the digit of the statement after so many others, which are some. It has room in a count (`too_many`).
pub(crate) fn place_of(first: usize, placed: usize) -> Result<usize, AllocError>
    requires { 0 < placed }
    ensures { IfOk result (λ place. (values : List ℕ) → value values place ≡ digit values first placed) }
{
    match first.checked_add(placed - 1) {
        Some(place) => Ok(place),
        None => Err(too_many()),
    }
}

// One more is put in, by its digit.
fn put_next(
    alloc: Global,
    dag: &mut Dag,
    nodes: &[BoolId],
    first: usize,
    node: BoolId,
    chosen: Option<&Choice>,
) -> Result<List<BoolId>, AllocError>
    requires nodes { AllThere dag.old nodes.now }
    requires node { HasBool dag.old.nodes node }
    ensures keeps { Keeps dag.old dag.new }
    ensures put { IfOk result (λ made. IsPut dag.new (λ e. digit (chosen_values (option_copied chosen.entry) e) first (length nodes.now)) nodes.now node made) }
{
    if nodes.is_empty() {
        let mut made = List::new(alloc);
        made.push(node)?;
        return Ok(made);
    }
    let site = place_of(first, nodes.len())?;
    let made = put_by(alloc, dag, nodes, site, node, chosen)?;
    Ok(made)
}

// So many times the same node.
#[tactic(auto, using(crate::proofs::Turns::copying))]
pub(crate) fn copies_of(
    alloc: Global,
    node: BoolId,
    count: usize,
) -> Result<List<BoolId>, AllocError>
    ensures { IfOk result (λ made. made ≡ replicate count node) }
{
    let mut made = List::new(alloc);
    for _i in 0..count {
        made.push(node)?;
    }
    Ok(made)
}

// For each turn of a `reorder` of `count` statements a node that holds where it is the turn of the statement with number
// `k`. The digits of the statements are chosen for the sites from the place `first` on, one less than there are statements;
// where a choice is in range, the nodes say what `arrange` of `sk_model` says. The graph grows with the square of the number
// of statements. After a refusal the graph has all nodes that it had (`keeps`).
pub(crate) fn turns_of(
    alloc: Global,
    dag: &mut Dag,
    first: usize,
    count: usize,
    k: usize,
    chosen: Option<&Choice>,
) -> Result<List<BoolId>, AllocError>
    requires { k < count }
    ensures keeps { Keeps dag.old dag.new }
    ensures turns { IfOk result (λ made. AreTurns dag.new (option_copied chosen.entry) first count k made) }
{
    let never = flag(dag, false)?;
    let always = flag(dag, true)?;
    let mut made = turns_at(alloc, dag, first, k, never, always, chosen)?;
    for _placed in k + 1..count {
        let next = put_next(alloc, dag, made.as_slice(), first, never, chosen)?;
        made = next;
    }
    Ok(made)
}

// The turns of the last of some statements, over nodes that never and that always hold.
fn turns_at(
    alloc: Global,
    dag: &mut Dag,
    first: usize,
    k: usize,
    never: BoolId,
    always: BoolId,
    chosen: Option<&Choice>,
) -> Result<List<BoolId>, AllocError>
    requires never { IsGiven dag.old never false }
    requires always { IsGiven dag.old always true }
    ensures keeps { Keeps dag.old dag.new }
    ensures turns { IfOk result (λ made. AreTurns dag.new (option_copied chosen.entry) first (k + 1) k made) }
{
    let before = copies_of(alloc, never, k)?;
    let made = put_next(alloc, dag, before.as_slice(), first, always, chosen)?;
    Ok(made)
}
